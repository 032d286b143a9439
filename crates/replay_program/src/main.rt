// Runs a list of recordings through the sample program's steps, as oracle/src/recording_list.rs lays
// it out: each is its length in an 8-byte word, then its bytes. A line with its number and length stands
// before what the program writes for it. The steps are taken as `receive` takes them: over as many bytes
// as the stage waits for, fewer at the recording's end.
#![tactic(auto)]

ghost use Rattle.std.specs.Prelude.{◌+◌, ◌≤◌, ◌<◌, length};
ghost use Rattle.program.specs.Program.{wanted_of, left_of, Moves};

use program::step::{Program, started, stepped, wanted};
use replay::word;

const IN: i32 = 0;

const OUT: i32 = 1;

// A step over the bytes that came, and its text.
fn turned(p: Program, bytes: &[u8], table: &mut [f32]) -> Program
    requires stage_nonzero { 0 < wanted_of p.stage }
    requires stage_bound { p.overload + left_of p.stage ≤ 4294967295 }
    ensures { Moves p.stage p.overload result.stage result.overload }
{
    let mut text = [0u8; 24606];
    let q = stepped(p, bytes, table, &mut text);
    let end = q.end;
    io::write_all(OUT, &text[..end]);
    q
}

// A recording, from the first stage to the last.
fn play(recording: &[u8]) {
    let mut table = [0.0f32; 16384];
    let mut p = started();
    let mut stage = p.stage;
    let mut at = 0;
    while wanted(stage) > 0 {
        let end = at + wanted(stage).min(recording.len() - at);
        let q = turned(p, &recording[at..end], &mut table);
        stage = q.stage;
        p = q;
        at = end;
    }
}

fn print_head(number: u64, length: u64) {
    io::write_all(OUT, b"recording ");
    io::print_decimal(OUT, number);
    io::write_all(OUT, b" of ");
    io::print_decimal(OUT, length);
    io::write_all(OUT, b" bytes\n");
}

// Whether the bytes of a recording came; it is played.
fn played(number: u64, bytes: &mut [u8]) -> bool {
    if io::read_full(IN, &mut *bytes) < bytes.len() {
        return false;
    }
    print_head(number, bytes.len() as u64);
    play(bytes);
    true
}

// Whether a recording was read, and answered.
fn answered(number: u64, bytes: &mut [u8]) -> bool {
    let mut head = [0u8; 8];
    if io::read_full(IN, &mut head) < 8 {
        return false;
    }
    let length = word(&head, 0) as usize;
    if length > bytes.len() {
        return false;
    }
    played(number, &mut bytes[..length])
}

fn main() {
    let mut bytes = [0u8; 65536];
    for number in 1..1000000000u64 {
        if !answered(number, &mut bytes) {
            break;
        }
    }
}
