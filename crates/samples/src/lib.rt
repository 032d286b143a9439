// A block's samples by themselves: whether all are finite, and how many are overloaded.
#![tactic(auto)]

ghost use Rattle.std.specs.Prelude.{◌≡◌, ◌+◌, ◌<◌, ◌≤◌, length};
ghost use Rattle.samples.specs.Samples.{still_finite, finite_of, tallied, is_at_end, overload_of, measured_of};
ghost use Rattle.samples.specs.Inside.{is_inside, all_inside};

use numbers::compare::is_finite;

// Overload: the number of samples with a part at an end or beyond it, where all parts are finite.
#[derive(Clone, Copy)]
pub struct Level {
    pub finite: bool,
    pub overload: u32,
}

// The ends of what a 16-bit converter gives.
const UPPER_END: f32 = 32767.0 / 32768.0;

const LOWER_END: f32 = -1.0;

fn is_at_end(x: f32) -> bool
    ensures { result ≡ is_at_end x }
{
    (x >= UPPER_END) | (x <= LOWER_END)
}

// The count after one sample more.
fn tally(count: u32, real: f32, imaginary: f32) -> u32
    requires { count < 65536 }
    ensures same { result ≡ tallied is_at_end count real imaginary }
    ensures more { result ≤ count + 1 }
{
    if is_at_end(real) | is_at_end(imaginary) {
        count + 1
    } else {
        count
    }
}

fn overloads(samples: &[f32]) -> u32
    requires { length samples.now ≤ 131072 }
    ensures { result ≡ overload_of samples.now }
{
    let n = samples.len() / 2;
    let mut count = 0;
    for i in 0..n {
        count = tally(count, samples[2 * i], samples[2 * i + 1]);
    }
    count
}

fn still_finite(before: bool, real: f32, imaginary: f32) -> bool
    ensures { result ≡ still_finite before real imaginary }
{
    before & (is_finite(real) & is_finite(imaginary))
}

fn all_finite(samples: &[f32]) -> bool
    ensures { result ≡ finite_of samples.now }
{
    let n = samples.len() / 2;
    let mut ok = true;
    for i in 0..n {
        ok = still_finite(ok, samples[2 * i], samples[2 * i + 1]);
    }
    ok
}

// Below the upper end in size: finite, and at neither end. One comparison of the size, where the ends take two.
fn is_inside(x: f32) -> bool
    ensures { result ≡ is_inside x }
{
    (x > -UPPER_END) & (x < UPPER_END)
}

fn all_inside(samples: &[f32]) -> bool
    ensures { result ≡ all_inside samples.now }
{
    let mut ok = true;
    for &part in samples {
        ok = ok & is_inside(part);
    }
    ok
}

// Most blocks are inside, and nothing more is asked of them.
pub fn measured(samples: &[f32]) -> Level
    requires { length samples.now ≤ 131072 }
    ensures { result ≡ measured_of samples.now }
{
    if all_inside(samples) {
        return Level {
            finite: true,
            overload: 0,
        };
    }
    if all_finite(samples) {
        return Level {
            finite: true,
            overload: overloads(samples),
        };
    }
    Level {
        finite: false,
        overload: 0,
    }
}
