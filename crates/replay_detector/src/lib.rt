// The detector's state for the replay programs: made from a seed, and digested whole; and a run's head
// and inputs. Test machinery: it is proved safe and ending, and that what it makes may be run.
#![tactic(auto)]

ghost use Rattle.std.specs.Prelude.{◌≡◌, ◌<◌, ◌≤◌, length};
ghost use Rattle.answers.specs.Walk.{Table, Earlier};

use answers::soft::{Records, Soft};
use answers::walk::Dibit;
use answers::{PARENTS, STEPS};
use channels::STATES;
use complex::Complex32;
use numbers::bits::float32;
use replay::{
    mixed, mixed_bytes, mixed_flag, mixed_float32, mixed_plane, next, part, print_line, word,
};
use sequence::step::{Detected, DetectorPlace};

// A run of steps: what is asked, its state's seed and start, and how many steps follow.
#[derive(Clone, Copy)]
pub struct Request {
    pub asked: u64,
    pub seed: u64,
    pub start: u64,
    pub count: u64,
}

pub fn decoded(head: &[u8]) -> Request
    requires { 32 ≤ length head.now }
{
    Request {
        asked: word(head, 0),
        seed: word(head, 8),
        start: word(head, 16),
        count: word(head, 24),
    }
}

// A step's input, its real part in the low half.
pub fn input(a: u64) -> Complex32 {
    Complex32 {
        real: float32((a % 0x1_0000_0000) as u32),
        imaginary: float32((a / 0x1_0000_0000) as u32),
    }
}

// A step from standard input: its input, and whether it is reliable; zeros where the input has ended.
#[derive(Clone, Copy)]
pub struct Step {
    pub input: Complex32,
    pub reliable: bool,
}

pub fn read_step() -> Step {
    let mut step = [0u8; 16];
    io::read_full(0, &mut step);
    Step {
        input: input(word(&step, 0)),
        reliable: word(&step, 8) == 1,
    }
}

// The kinds of floats and of costs, place, fill, previous symbol (0, or 1 and the symbol) and the kind
// of the second tracker's inverses.
#[derive(Clone, Copy)]
pub struct Start {
    pub floats: u64,
    pub costs: u64,
    pub write: usize,
    pub filled: usize,
    pub previous: usize,
    pub inverses: u64,
}

// A made value, and the seed after it.
#[derive(Clone, Copy)]
pub struct Made<T> {
    pub value: T,
    pub seed: u64,
}

fn byte(word: u64, k: u64) -> u64
    requires { k ≤ 7 }
{
    (word >> (8 * k)) % 256
}

pub fn started(word: u64) -> Start {
    Start {
        floats: byte(word, 0),
        costs: byte(word, 1),
        write: byte(word, 2) as usize,
        filled: byte(word, 3) as usize,
        previous: byte(word, 4) as usize,
        inverses: byte(word, 5),
    }
}

// A state, or 0.
fn parent(kind: u64, seed: u64) -> u8
    ensures { result < 64 }
{
    if kind == 0 { 0 } else { (seed % 64) as u8 }
}

// Stored parents: zeros, or any states; and the seed after them.
pub fn fill_parents(s: u64, kind: u64, parents: &mut [u8; PARENTS]) -> u64
    ensures { Table parents.new × (length parents.new ≡ 2048) }
{
    let mut seed = s;
    for i in 0..PARENTS {
        seed = next(seed);
        parents[i] = parent(kind, seed);
    }
    seed
}

fn made_soft(word: u64, kind: u64, high: f32, low: f32) -> Option<Soft> {
    if kind == 0 || word % 4 == 0 {
        return None;
    }
    Some(Soft {
        high_sign: word / 4 % 2 == 1,
        low_sign: word / 8 % 2 == 1,
        high_reliability: high,
        low_reliability: low,
    })
}

pub fn made_records(s: u64, kind: u64) -> Made<Records> {
    let mut records = sequence::step::fresh_records();
    let mut seed = s;
    for i in 0..STEPS {
        let word = next(seed);
        let first = next(word);
        let second = next(first);
        records.slots[i] = made_soft(word, kind, part(kind, first, 0.0), part(kind, second, 0.0));
        seed = second;
    }
    Made {
        value: records,
        seed,
    }
}

// Absent one time in three, and where the kind is what stood there.
pub fn made_point(s: u64, kind: u64) -> Made<Option<Complex32>> {
    let word = next(s);
    let first = next(word);
    let second = next(first);
    let value = Complex32 {
        real: part(kind, first, 0.0),
        imaginary: part(kind, second, 0.0),
    };
    let point = if kind == 0 {
        None
    } else if word % 3 == 0 {
        None
    } else {
        Some(value)
    };
    Made {
        value: point,
        seed: second,
    }
}

fn made_previous(previous: usize) -> Option<usize>
    ensures { Earlier result }
{
    if previous == 0 {
        None
    } else {
        Some((previous - 1) % 4)
    }
}

pub fn made_place(start: Start, s: u64) -> Made<DetectorPlace>
    ensures { (result.value.write < 32) × (result.value.filled ≤ 32) × Earlier result.value.previous }
{
    let kind = start.floats;
    let combined = made_point(s, kind);
    let seed = next(combined.seed);
    Made {
        value: DetectorPlace {
            write: start.write % 32,
            filled: start.filled % 33,
            previous: made_previous(start.previous),
            combined: combined.value,
            noise: part(kind, seed, 0.1),
        },
        seed,
    }
}

// The record of the step stored at `write`.
pub fn stored(records: Records, write: usize, d: Detected) -> Records
    requires { write < 32 }
{
    let mut r = records;
    r.slots[write] = d.soft;
    r
}

pub fn mixed_point(h: u64, point: Option<Complex32>) -> u64 {
    match point {
        None => mixed(h, 0),
        Some(z) => mixed_float32(mixed_float32(mixed(h, 1), z.real), z.imaginary),
    }
}

fn shown_previous(previous: Option<usize>) -> u64 {
    match previous {
        None => 0,
        Some(k) => std::num::wrapping_add_u64(k as u64, 1),
    }
}

pub fn mixed_place(h: u64, d: DetectorPlace) -> u64 {
    let a = mixed(mixed(h, d.write as u64), d.filled as u64);
    let b = mixed(a, shown_previous(d.previous));
    mixed_float32(mixed_point(b, d.combined), d.noise)
}

fn mixed_soft(h: u64, soft: Option<Soft>) -> u64 {
    match soft {
        None => mixed(h, 0),
        Some(s) => {
            let bits = mixed_flag(mixed_flag(mixed(h, 1), s.high_sign), s.low_sign);
            mixed_float32(mixed_float32(bits, s.high_reliability), s.low_reliability)
        }
    }
}

pub fn mixed_records(h: u64, records: Records) -> u64 {
    records.slots.iter().fold(h, |d, slot| mixed_soft(d, *slot))
}

// A dibit with its reliabilities as one number, or 0.
pub fn shown(answer: Option<Dibit>) -> u64 {
    match answer {
        None => 0,
        Some(d) => {
            0x100_0000 + 0x1_0000 * (d.value as u64) + 0x100 * (d.high as u64) + (d.low as u64)
        }
    }
}

// The digest of a step's answer.
pub fn told(d: Detected) -> u64 {
    let h = mixed(0, shown(d.answer));
    mixed_point(
        mixed_float32(mixed_float32(h, d.phase), d.power),
        d.equalized,
    )
}

// The digest with what the detector stores of its steps.
pub fn mixed_steps(
    h: u64,
    costs: &[f32; STATES],
    parents: &[u8; PARENTS],
    records: Records,
) -> u64 {
    mixed_records(mixed_bytes(mixed_plane(h, costs), parents), records)
}

// A line of a step's answer, where 1 is asked, or of the digest of all that it left, its tracker's planes
// in their order.
pub fn tell(
    asked: u64,
    d: Detected,
    planes: &[&[f32]],
    costs: &[f32; STATES],
    parents: &[u8; PARENTS],
    records: Records,
) {
    if asked == 1 {
        print_line(shown(d.answer), 16);
        return;
    }
    let place = mixed_place(told(d), d.place);
    let tracker = planes.iter().fold(place, |h, p| mixed_plane(h, p));
    print_line(mixed_steps(tracker, costs, parents, records), 16);
}
