// The sample program: settings and samples from standard input, a line for each dibit and the
// closing lines, or a refusal, to standard output. Here is what reads and writes; what comes of the bytes
// read, `program` does on slices.
//
// A read that fails counts as the end of the input. A write that fails ends the run: what was written
// is a beginning of the answer and lacks its last lines.
#![tactic(auto)]

ghost use Rattle.std.specs.Prelude.{◌≡◌, ◌+◌, ◌≤◌, ◌<◌, length, take};
ghost use Rattle.program.specs.Program.{wanted_of, left_of, ran_now, step_of, table_of, Moves};
ghost use Rattle.receive.specs.Turn.{Turn};

use program::step::{Program, gone_on, started, stepped, wanted};

const STDIN: i32 = 0;

const STDOUT: i32 = 1;

// How many bytes came, and the program after the step over them. The count is handed back so that the
// contract can say over which bytes the step was taken.
#[derive(Clone, Copy)]
struct Feeding {
    got: usize,
    program: Program,
}

// A step over what comes of the bytes that the program waits for: the first `got` of those lent.
fn fed(p: Program, bytes: &mut [u8], table: &mut [f32], text: &mut [u8]) -> Feeding
    requires in_bounds { 24606 ≤ length text.old }
    requires stage_nonzero { 0 < wanted_of p.stage }
    requires stage_bound { p.overload + left_of p.stage ≤ 4294967295 }
    ensures within { result.got ≤ length bytes.new }
    ensures same { ran_now result.program text.new ≡ step_of p.stage p.receiver p.overload (take result.got bytes.new) table.old text.old }
    ensures made { table.new ≡ table_of p.stage (take result.got bytes.new) table.old }
    ensures near { result.program.end ≤ 24606 }
    ensures kept { length text.new ≡ length text.old }
    ensures on { Moves p.stage p.overload result.program.stage result.program.overload }
{
    let got = io::read_full(STDIN, &mut *bytes);
    let program = stepped(p, &bytes[..got], table, text);
    Feeding { got, program }
}

// Reads, takes the step, and writes what it answers.
fn turned(p: Program, table: &mut [f32]) -> Program
    requires stage_nonzero { 0 < wanted_of p.stage }
    requires stage_bound { p.overload + left_of p.stage ≤ 4294967295 }
    ensures turn { Turn p table.old result table.new }
    ensures on { Moves p.stage p.overload result.stage result.overload }
{
    let stage = p.stage;
    let want = wanted(stage);
    let mut bytes = [0u8; 8192];
    let mut text = [0u8; 24606];
    let f = fed(p, &mut bytes[..want], table, &mut text);
    let q = f.program;
    let end = q.end;
    let written = io::write_all(STDOUT, &text[..end]);
    gone_on(q, written)
}

// A turn for each thing that is waited for; the table has room for 16,384 taps.
fn main() {
    let mut table = [0.0f32; 16384];
    let mut p = started();
    let mut stage = p.stage;
    while wanted(stage) > 0 {
        let q = turned(p, &mut table);
        stage = q.stage;
        p = q;
    }
}
