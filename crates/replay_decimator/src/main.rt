// Runs the decimator on each run of samples from standard input, from the run's own state, and
// writes a line for each: the digest of what came out and of the state after it, in the order of the
// list that the oracle prints.
#![tactic(auto)]

ghost use Rattle.std.specs.Prelude.{◌+◌, ◌<◌, ◌≤◌, length};

use complex::Complex32;
use decimator::{Decimator, Parts, Stages};
use replay::{any, mixed, mixed_decimator, mixed_float32, print_line, record, word};

// Three words from a place of a run's head on.
fn stages(head: &[u8], at: usize) -> Stages
    requires { at + 24 ≤ length head.now }
{
    Stages {
        first: word(head, at),
        second: word(head, at + 8),
        third: word(head, at + 16),
    }
}

// The stages of both parts, from a place on.
fn parts(head: &[u8], at: usize) -> Parts
    requires { at + 48 ≤ length head.now }
{
    Parts {
        real: stages(head, at),
        imaginary: stages(head, at + 24),
    }
}

// The decimator that a run's head gives.
fn decoded(head: &[u8]) -> Decimator
    requires { 120 ≤ length head.now }
{
    Decimator {
        decimation: word(head, 0) as usize,
        counter: word(head, 8) as usize,
        integrators: parts(head, 16),
        combs: parts(head, 64),
    }
}

// The digest with an output more.
fn mixed_output(h: u64, output: Option<Complex32>) -> u64 {
    match output {
        None => mixed(h, 0),
        Some(v) => mixed_float32(mixed_float32(mixed(h, 1), v.real), v.imaginary),
    }
}

// A sample made of a word: any f32 in either part.
fn sample(a: u64) -> Complex32 {
    Complex32 {
        real: any(a),
        imaginary: any(a / 0x1_0000_0000),
    }
}

// The digest of a run: as many samples as it says, or as many as there are.
fn digest(d0: Decimator, count: u64) -> u64
    requires { d0.counter < d0.decimation }
{
    let mut d = d0;
    let mut h: u64 = 0;
    for _ in 0..count {
        let mut bytes = [0u8; 8];
        io::read_full(0, &mut bytes);
        let s = decimator::stepped(d, sample(word(&bytes, 0)));
        h = mixed_output(h, s.output);
        d = s.decimator;
    }
    mixed_decimator(h, d)
}

// A run, where its decimator may be run.
fn answer(head: &[u8; 120]) {
    let d = decoded(head);
    if d.counter < d.decimation {
        print_line(digest(d, word(head, 112)), 16);
    }
}

fn main() {
    for head in std::iter::from_fn(record::<120>).take(1_000_000) {
        answer(&head);
    }
}
