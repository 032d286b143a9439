// The decimator: three integrators at the input's rate and three combs at the d-th part of it, all
// modulo 2^64, for both parts of a sample with one counter. A sum that leaves the 64 bits on the way
// comes back into them: specs/Theorem.antt. The receiver runs `gathered` for each sample and `decimate`
// at every d-th; tests take the same steps sample by sample with `stepped`.
#![tactic(auto)]

ghost use Rattle.std.specs.Prelude.{◌≡◌, ◌<◌};
ghost use Rattle.std.specs.Float.{binary64};
ghost use Rattle.std.specs.Float.Ieee.{of_int};
ghost use Rattle.decimator.specs.Decimator.{fresh_of, admitted_of, Counting, counts_of};
ghost use Rattle.decimator.specs.Decimator.{integrated_of, combed_of, absorbed_of, released_of, sounded_of, advanced_of, scale_of, scaled_of, decimated_of, output_of, stepped_of};

use complex::Complex32;
use numbers::bits::{signed, unsigned};
use numbers::narrow::narrow;
use quantiser::quantised;
use std::num::{wrapping_add_u64, wrapping_sub_u64};
use whole::from_i64;

mod quantiser;

// The largest decimation: that of 20,000,000 samples a second.
const MOST: usize = 78;

// The three stages of one part: the integrators' sums, or what the combs met at the last output.
#[derive(Clone, Copy)]
pub struct Stages {
    pub first: u64,
    pub second: u64,
    pub third: u64,
}

// The stages of both parts.
#[derive(Clone, Copy)]
pub struct Parts {
    pub real: Stages,
    pub imaginary: Stages,
}

// Both parts of a sample or of a sum, as whole numbers.
#[derive(Clone, Copy)]
pub struct Counts {
    pub real: i64,
    pub imaginary: i64,
}

// One output for `decimation` samples, 1 to 78; `counter` of them, fewer than that, have come since the
// last output.
#[derive(Clone, Copy)]
pub struct Decimator {
    pub decimation: usize,
    pub counter: usize,
    pub integrators: Parts,
    pub combs: Parts,
}

// What three combs make of a sum, and their delays after it.
#[derive(Clone, Copy)]
pub struct Difference {
    pub delays: Stages,
    pub value: i64,
}

// Both combs' sums at a d-th sample, and the decimator after it.
#[derive(Clone, Copy)]
pub struct Release {
    pub decimator: Decimator,
    pub sum: Counts,
}

// The decimator after a sample, and its output before it is scaled: both combs' sums at every d-th
// sample, and nothing between.
#[derive(Clone, Copy)]
pub struct Advance {
    pub decimator: Decimator,
    pub raw: Option<Counts>,
}

// A decimated value, and the decimator after it.
#[derive(Clone, Copy)]
pub struct Decimated {
    pub decimator: Decimator,
    pub value: Complex32,
}

// The decimator after a sample, and its decimated value or none yet.
#[derive(Clone, Copy)]
pub struct Step {
    pub decimator: Decimator,
    pub output: Option<Complex32>,
}

// Nothing has come in: every sum and delay is 0.
pub fn fresh(decimation: usize) -> Decimator
    ensures { result ≡ fresh_of decimation }
{
    let none = Stages {
        first: 0,
        second: 0,
        third: 0,
    };
    let nothing = Parts {
        real: none,
        imaginary: none,
    };
    Decimator {
        decimation,
        counter: 0,
        integrators: nothing,
        combs: nothing,
    }
}

// Whether this decimator may be run, be it from a setup or handed in.
pub fn is_admitted(d: Decimator) -> bool
    ensures { result ≡ admitted_of d }
{
    (d.decimation >= 1) & ((d.decimation <= MOST) & (d.counter < d.decimation))
}

// The three integrators of one part after a number: each sum takes in the one before it.
fn integrated(s: Stages, n: i64) -> Stages
    ensures { result ≡ integrated_of s n }
{
    let first = wrapping_add_u64(s.first, unsigned(n));
    let second = wrapping_add_u64(s.second, first);
    let third = wrapping_add_u64(s.third, second);
    Stages {
        first,
        second,
        third,
    }
}

// The three combs of one part at an output: each takes off what it met at the output before.
fn combed(y: Stages, sum: u64) -> Difference
    ensures { result ≡ combed_of y sum }
{
    let second = wrapping_sub_u64(sum, y.first);
    let third = wrapping_sub_u64(second, y.second);
    let last = wrapping_sub_u64(third, y.third);
    Difference {
        delays: Stages {
            first: sum,
            second,
            third,
        },
        value: signed(last),
    }
}

// Both parts of a sample as whole numbers.
fn counted(z: Complex32) -> Counts
    ensures { result ≡ counts_of z }
{
    Counts {
        real: quantised(z.real),
        imaginary: quantised(z.imaginary),
    }
}

// Both parts' integrators after a sample in whole numbers.
fn absorbed(s: Parts, n: Counts) -> Parts
    ensures { result ≡ absorbed_of s n }
{
    Parts {
        real: integrated(s.real, n.real),
        imaginary: integrated(s.imaginary, n.imaginary),
    }
}

// The combs at a d-th sample, its sums taken.
fn released(d: Decimator, s: Parts) -> Release
    ensures { result ≡ released_of d s }
{
    let u = combed(d.combs.real, s.real.third);
    let v = combed(d.combs.imaginary, s.imaginary.third);
    Release {
        decimator: Decimator {
            counter: 0,
            integrators: s,
            combs: Parts {
                real: u.delays,
                imaginary: v.delays,
            },
            ..d
        },
        sum: Counts {
            real: u.value,
            imaginary: v.value,
        },
    }
}

// The same as an `Advance`. Only `advanced` calls it, for tests.
fn sounded(d: Decimator, s: Parts) -> Advance
    ensures { result ≡ sounded_of d s }
{
    let r = released(d, s);
    Advance {
        decimator: r.decimator,
        raw: Some(r.sum),
    }
}

// One sample in whole numbers. Only `stepped` calls it, for tests.
fn advanced(d: Decimator, n: Counts) -> Advance
    requires { d.counter < d.decimation }
    ensures { result ≡ advanced_of d n }
{
    let s = absorbed(d.integrators, n);
    if d.counter + 1 < d.decimation {
        Advance {
            decimator: Decimator {
                counter: d.counter + 1,
                integrators: s,
                ..d
            },
            raw: None,
        }
    } else {
        sounded(d, s)
    }
}

// n as a float: up to 2^53 in size every whole number is one.
fn float(n: i64) -> f64
    ensures { result ≡ of_int binary64 n }
{
    if n > -9007199254740992 && n < 9007199254740992 {
        n as f64
    } else {
        from_i64(n)
    }
}

// 1 / (32,768 d d d): the weights of a sum of 3d - 2 samples add up to d d d.
fn scale(decimation: usize) -> f64
    ensures { result ≡ scale_of decimation }
{
    let d = std::num::nearest_u64_to_f64(decimation as u64);
    1.0 / (32768.0 * d * d * d)
}

// Sums as a sample again: scaled in f64, and rounded to f32 once.
fn scaled(decimation: usize, n: Counts) -> Complex32
    ensures { result ≡ scaled_of decimation n }
{
    let k = scale(decimation);
    Complex32 {
        real: narrow(float(n.real) * k),
        imaginary: narrow(float(n.imaginary) * k),
    }
}

// A sample into the integrators alone: the counter and the combs are the caller's, for runs of
// samples between two outputs.
pub fn gathered(s: Parts, z: Complex32) -> Parts
    ensures { result ≡ absorbed_of s (counts_of z) }
{
    absorbed(s, counted(z))
}

// The value at a d-th sample, its sums taken.
pub fn decimate(d: Decimator, s: Parts) -> Decimated
    ensures { result ≡ decimated_of d s }
{
    let r = released(d, s);
    Decimated {
        decimator: r.decimator,
        value: scaled(d.decimation, r.sum),
    }
}

// One sample, as the definition takes it: d = 1 passes it through. Only tests call it; the receiver
// takes a run of samples at once, and the crate `front` proves that this makes the same of them.
pub fn stepped(d: Decimator, z: Complex32) -> Step
    requires { d.counter < d.decimation }
    ensures same { result ≡ stepped_of d z }
    ensures kept { Counting d.decimation result.decimator }
{
    if d.decimation > 1 {
        let a = advanced(d, counted(z));
        Step {
            decimator: a.decimator,
            output: a.raw.map(|sum| scaled(d.decimation, sum)),
        }
    } else {
        Step {
            decimator: d,
            output: Some(z),
        }
    }
}
