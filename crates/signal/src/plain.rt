// The power pass of a read, and the numbers of its write pass, without a branch, so that a compiler can
// run them on several points at once. The powers of any parts are added up, and beside the sum stands
// whether every part is plain: zero or of a size that a division by the amplitude keeps within the f32
// range. Then no part is a NaN, and a quotient is narrowed by rounding its bits in place.
ghost use Rattle.std.specs.Prelude.{◌≡◌, ◌+◌, ◌≤◌, min, true, not, T, is_nan};
ghost use Rattle.std.specs.Float.{binary32, binary64};
ghost use Rattle.std.specs.Float.Ieee.{div};
ghost use Rattle.laws.specs.Turns.{turns};
ghost use Rattle.numbers.specs.Numbers.{abs_of, convert};
ghost use Rattle.signal.specs.Plain.{is_plain, Usual, PlainAmplitude, common_of, error_from, run_of};
ghost use Rattle.signal.specs.Powers.{no_nan_of, span_of, with_point_of, power_step, plain_of};

use super::{IDEAL, POINTS};

// The span of 2 ^ -60: no part is smaller, unless it is zero.
const LEAST_SPAN: u32 = 0x42ff_ffff;

// 2 ^ 100: where a sum of powers is at most this, no part is above 2 ^ 60.
const MOST_SUM: f64 = 1.2676506002282294e30;

// 2 ^ -60 and 2 ^ 60.
const LEAST_AMPLITUDE: f64 = 8.673617379884035e-19;

const MOST_AMPLITUDE: f64 = 1.152921504606847e18;

// A NaN is taken for infinity: a sum that would be a NaN is infinite then, and is not used either.
fn no_nan(x: f32) -> f32
    ensures same { result ≡ no_nan_of x }
    ensures number { T (not (is_nan result)) }
{
    if x != x { 1.0 / 0.0 } else { x }
}

// Twice the bits of the size, less 1: the larger the size, the larger it is, and of a zero, where it
// wraps, it is the largest.
fn span(x: f32) -> u32
    requires { T (not (is_nan x)) }
    ensures { result ≡ span_of x }
{
    std::num::wrapping_sub_u32(f32::to_bits(x) % 0x8000_0000 * 2, 1)
}

// The smaller of two spans.
fn least(a: u32, b: u32) -> u32
    ensures { result ≡ min a b }
{
    if a < b { a } else { b }
}

// A sum of powers, and the least span of the real and of the imaginary parts on the way. The two are
// apart, as the parts are, so that they go side by side.
#[derive(Clone, Copy)]
pub struct Power {
    pub sum: f64,
    pub across: u32,
    pub up: u32,
}

// One point more.
fn with_point(power: Power, x: f32, y: f32) -> Power
    ensures { result ≡ with_point_of power x y }
{
    let a = no_nan(x);
    let b = no_nan(y);
    let u = a as f64;
    let v = b as f64;
    Power {
        sum: power.sum + (u * u + v * v),
        across: least(power.across, span(a)),
        up: least(power.up, span(b)),
    }
}

// The powers of `count` points from the place `from` on, added in that order to the sum before them.
pub fn power_run(
    real: &[f32; POINTS],
    imaginary: &[f32; POINTS],
    from: usize,
    count: usize,
    before: Power,
) -> Power
    requires { from + count ≤ 1024 }
    ensures { result ≡ turns (run_of (power_step real.now imaginary.now) from 0) count before }
{
    let mut power = before;
    for i in 0..count {
        power = with_point(power, real[from + i], imaginary[from + i]);
    }
    power
}

// Whether every part is plain: none is too small, and the sum is not too large.
pub fn are_plain(power: Power) -> bool
    ensures { result ≡ plain_of power }
{
    (power.across >= LEAST_SPAN) & (power.up >= LEAST_SPAN) & (power.sum <= MOST_SUM)
}

// Whether the parts are plain, and the amplitude too.
pub fn is_common(plain: bool, amplitude: f64) -> bool
    ensures { result ≡ common_of plain amplitude }
{
    plain & (amplitude >= LEAST_AMPLITUDE) & (amplitude <= MOST_AMPLITUDE)
}

// The size of a number: its sign's bit is cleared.
fn size(x: f64) -> f64
    requires { Usual x }
    ensures { result ≡ abs_of x }
{
    f64::from_bits(f64::to_bits(x) % 0x8000_0000_0000_0000)
}

// The nearest f32: the last 29 binary digits are rounded off in place, to the even one at a tie.
pub fn narrow(x: f64) -> f32
    requires { Usual x }
    ensures { result ≡ convert binary32 x }
{
    let b = f64::to_bits(x);
    let z = (b + 0xfff_ffff + b / 0x2000_0000 % 2) / 0x2000_0000 * 0x2000_0000;
    f64::from_bits(z) as f32
}

// A part over the amplitude.
pub fn quotient(x: f32, amplitude: f64) -> f64
    requires x_value { is_plain x ≡ true }
    requires plain_amplitude { PlainAmplitude amplitude }
    ensures same { result ≡ div binary64 x amplitude }
    ensures usual { Usual result }
{
    (x as f64) / amplitude
}

// The squared error of a point whose parts are given.
pub fn error(x: f64, y: f64) -> f64
    requires usual_x { Usual x }
    requires usual_y { Usual y }
    ensures { result ≡ error_from x y }
{
    let across = size(x) - IDEAL;
    let up = size(y) - IDEAL;
    across * across + up * up
}
