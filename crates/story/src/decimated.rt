// The decimator of a receiver by itself.
ghost use Rattle.std.specs.Prelude.{◌<◌};

use super::kept::{is_zero, plus};
use complex::Complex32;
use decimator::Decimator;
use numbers::bits::pattern32;

// How many decimated values came, and how many of them are unlike.
#[derive(Clone, Copy)]
pub struct Compared {
    pub made: u64,
    pub unlike: u64,
}

// A value that is not 0.
fn is_heard(o: Option<Complex32>) -> bool {
    match o {
        None => false,
        Some(v) => !is_zero(v.real, v.imaginary),
    }
}

// Whether one has a value and the other has none, or another one in its bits.
fn is_unlike(a: Option<Complex32>, b: Option<Complex32>) -> bool {
    match (a, b) {
        (Some(v), Some(w)) => {
            pattern32(v.real) != pattern32(w.real)
                || pattern32(v.imaginary) != pattern32(w.imaginary)
        }
        (None, None) => false,
        _ => true,
    }
}

fn later(last: u64, n: u64, heard: bool) -> u64 {
    if heard { n } else { last }
}

// Of 2,048 samples that are 0, the last with a decimated value that is not.
fn last_of_zeros(first: Decimator) -> u64
    requires { first.counter < first.decimation }
{
    let mut d = first;
    let mut last: u64 = 0;
    for n in 0..2048 {
        let s = decimator::stepped(d, complex::zero());
        last = later(last, n + 1, is_heard(s.output));
        d = s.decimator;
    }
    last
}

pub fn last_value(d: Decimator) -> u64 {
    if d.counter < d.decimation {
        last_of_zeros(d)
    } else {
        0
    }
}

// Two decimators on the same samples.
fn beside(one: Decimator, other: Decimator, samples: &[f32]) -> Compared
    requires counter_lt_decimation { one.counter < one.decimation }
    requires counter_lt_decimation_2 { other.counter < other.decimation }
{
    let mut a = one;
    let mut b = other;
    let mut made: u64 = 0;
    let mut unlike: u64 = 0;
    for i in 0..samples.len() / 2 {
        let z = Complex32 {
            real: samples[2 * i],
            imaginary: samples[2 * i + 1],
        };
        let s = decimator::stepped(a, z);
        let t = decimator::stepped(b, z);
        made = plus(made, s.output.is_some());
        unlike = plus(unlike, is_unlike(s.output, t.output));
        a = s.decimator;
        b = t.decimator;
    }
    Compared { made, unlike }
}

// A decimator beside a fresh one, on the samples from the seventh block on.
pub fn unlike_fresh(d: Decimator, samples: &[f32]) -> Compared {
    if d.counter < d.decimation {
        if 12288 <= samples.len() {
            return beside(d, decimator::fresh(d.decimation), &samples[12288..]);
        }
    }
    Compared { made: 0, unlike: 0 }
}
