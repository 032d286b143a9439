// The program's steps, on slices: what it waits for, and what it does with the bytes that came.
ghost use Rattle.std.specs.Prelude.{◌≡◌, ◌+◌, ◌≤◌, ◌<◌, eqb, length};
ghost use Rattle.checks.specs.Refusal.{number_of};
ghost use Rattle.recording.specs.Text.{written_of};
ghost use Rattle.program.specs.declared.step.Stage.TheVariants.{Head, Settings, Count, Samples, End};
ghost use Rattle.program.specs.Program.{next_of, wanted_of, started_of, ran_now, refused_ran, head_good, head_of, settings_of, settings_table};
ghost use Rattle.program.specs.Program.{stage_of, count_of, samples_of, end_of, step_of, table_of, gone_on, left_of, Moves};

use crate::answer::{answered, closed};
use checks::refusal::Refusal;
use receiver::setup::set_up;
use receiver_state::state::Receiver;
use recording::decode::{count, float};

// What the program waits for.
#[derive(Clone, Copy)]
pub enum Stage {
    // the count of settings
    Head,
    // rate and offset
    Settings,
    // the count of samples
    Count,
    // the next block of the samples that are left
    Samples(usize),
    // the end of the input
    End,
    // nothing
    Done,
}

// The first `end` bytes of the text that a step was lent are to be written.
#[derive(Clone, Copy)]
pub struct Program {
    pub stage: Stage,
    pub receiver: Receiver,
    pub overload: u64,
    pub end: usize,
}

pub fn started() -> Program
    ensures { result ≡ started_of }
{
    Program {
        stage: Stage::Head,
        receiver: receiver_state::state::zero(),
        overload: 0,
        end: 0,
    }
}

// A block's samples: 1,024, or the last.
fn next_of(left: usize) -> usize
    ensures { result ≡ next_of left }
{
    if left < 1024 { left } else { 1024 }
}

// How many bytes the program waits for.
pub fn wanted(stage: Stage) -> usize
    ensures { result ≡ wanted_of stage }
{
    match stage {
        Stage::Head => 4,
        Stage::Settings => 16,
        Stage::Count => 4,
        Stage::Samples(left) => 8 * next_of(left),
        Stage::End => 1,
        Stage::Done => 0,
    }
}

fn is_whole(bytes: &[u8], want: usize) -> bool
    ensures { result ≡ eqb (length bytes.now) want }
{
    bytes.len() == want
}

fn stage_of(left: usize) -> Stage
    ensures { result ≡ stage_of left }
{
    if left > 0 {
        return Stage::Samples(left);
    }
    Stage::End
}

fn refused(refusal: Refusal, r: Receiver, overload: u64, text: &mut [u8]) -> Program
    requires { 30 ≤ length text.old }
    ensures same { ran_now result text.new ≡ refused_ran (number_of refusal) r overload (written_of 0 text.old) }
    ensures near { result.end ≤ 30 }
    ensures kept { length text.new ≡ length text.old }
{
    let end = recording::text::refused(u32::from(refusal), text, 0);
    Program {
        stage: Stage::Done,
        receiver: r,
        overload,
        end,
    }
}

fn head_is_good(bytes: &[u8]) -> bool
    ensures { result ≡ head_good bytes.now }
{
    if is_whole(bytes, 4) {
        return count(bytes, 0) == 2;
    }
    false
}

fn headed(r: Receiver, overload: u64, bytes: &[u8], text: &mut [u8]) -> Program
    requires { 30 ≤ length text.old }
    ensures same { ran_now result text.new ≡ head_of r overload bytes.now text.old }
    ensures near { result.end ≤ 30 }
    ensures kept { length text.new ≡ length text.old }
    ensures on { Moves Head overload result.stage result.overload }
{
    if head_is_good(bytes) {
        return Program {
            stage: Stage::Settings,
            receiver: r,
            overload,
            end: 0,
        };
    }
    refused(Refusal::File, r, overload, text)
}

// Setup is run once the settings are in.
fn set(r: Receiver, overload: u64, bytes: &[u8], table: &mut [f32], text: &mut [u8]) -> Program
    requires { 30 ≤ length text.old }
    ensures same { ran_now result text.new ≡ settings_of r overload bytes.now table.old text.old }
    ensures made { table.new ≡ settings_table bytes.now table.old }
    ensures near { result.end ≤ 30 }
    ensures kept { length text.new ≡ length text.old }
    ensures on { Moves Settings overload result.stage result.overload }
{
    if is_whole(bytes, 16) {
        return match set_up(float(bytes, 0), float(bytes, 8), 0, table) {
            Ok(receiver) => Program {
                stage: Stage::Count,
                receiver,
                overload,
                end: 0,
            },
            Err(refusal) => refused(refusal, r, overload, text),
        };
    }
    refused(Refusal::File, r, overload, text)
}

fn counted(r: Receiver, overload: u64, bytes: &[u8], text: &mut [u8]) -> Program
    requires { 30 ≤ length text.old }
    ensures same { ran_now result text.new ≡ count_of r overload bytes.now text.old }
    ensures near { result.end ≤ 30 }
    ensures kept { length text.new ≡ length text.old }
    ensures on { Moves Count overload result.stage result.overload }
{
    if is_whole(bytes, 4) {
        let n = count(bytes, 0);
        let stage = stage_of(n as usize);
        return Program {
            stage,
            receiver: r,
            overload,
            end: 0,
        };
    }
    refused(Refusal::File, r, overload, text)
}

// A block is run once all its bytes are in; one cut short is not run.
fn blocked(
    left: usize,
    r: Receiver,
    overload: u64,
    bytes: &[u8],
    table: &[f32],
    text: &mut [u8],
) -> Program
    requires in_bounds { 24606 ≤ length text.old }
    requires left_nonzero { 0 < left }
    requires left_bound { overload + left ≤ 4294967295 }
    ensures same { ran_now result text.new ≡ samples_of left r overload bytes.now table.now text.old }
    ensures near { result.end ≤ 24606 }
    ensures kept { length text.new ≡ length text.old }
    ensures on { Moves (Samples left) overload result.stage result.overload }
{
    let next = next_of(left);
    if is_whole(bytes, 8 * next) {
        let mut receiver = r;
        return match answered(&mut receiver, table, bytes, next, &mut *text) {
            Ok(a) => Program {
                stage: stage_of(left - next),
                receiver,
                overload: overload + (a.overload as u64),
                end: a.end,
            },
            Err(refusal) => refused(refusal, receiver, overload, text),
        };
    }
    refused(Refusal::File, r, overload, text)
}

// A byte after the last sample is one too many.
fn ended(r: Receiver, overload: u64, bytes: &[u8], text: &mut [u8]) -> Program
    requires { 120 ≤ length text.old }
    ensures same { ran_now result text.new ≡ end_of r overload bytes.now text.old }
    ensures near { result.end ≤ 120 }
    ensures kept { length text.new ≡ length text.old }
    ensures on { Moves End overload result.stage result.overload }
{
    if is_whole(bytes, 0) {
        let chain = r.chain;
        let end = closed(chain, overload, text);
        return Program {
            stage: Stage::Done,
            receiver: r,
            overload,
            end,
        };
    }
    refused(Refusal::File, r, overload, text)
}

// A step, from any stage but the last.
pub fn stepped(p: Program, bytes: &[u8], table: &mut [f32], text: &mut [u8]) -> Program
    requires in_bounds { 24606 ≤ length text.old }
    requires stage_nonzero { 0 < wanted_of p.stage }
    requires stage_bound { p.overload + left_of p.stage ≤ 4294967295 }
    ensures same { ran_now result text.new ≡ step_of p.stage p.receiver p.overload bytes.now table.old text.old }
    ensures made { table.new ≡ table_of p.stage bytes.now table.old }
    ensures near { result.end ≤ 24606 }
    ensures kept { length text.new ≡ length text.old }
    ensures on { Moves p.stage p.overload result.stage result.overload }
{
    let r = p.receiver;
    let overload = p.overload;
    let stage = p.stage;
    match stage {
        Stage::Head => headed(r, overload, bytes, text),
        Stage::Settings => set(r, overload, bytes, table, text),
        Stage::Count => counted(r, overload, bytes, text),
        Stage::Samples(left) => blocked(left, r, overload, bytes, table, text),
        Stage::End => ended(r, overload, bytes, text),
        Stage::Done => Program {
            stage: Stage::Done,
            receiver: r,
            overload,
            end: 0,
        },
    }
}

// A program whose text could not be written goes no further.
pub fn gone_on(p: Program, written: bool) -> Program
    ensures { result ≡ gone_on p written }
{
    if written {
        return p;
    }
    let r = p.receiver;
    Program {
        stage: Stage::Done,
        receiver: r,
        overload: p.overload,
        end: 0,
    }
}
