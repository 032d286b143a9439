// Rounding to whole numbers, and whole numbers to and from floats.
#![tactic(auto)]

ghost use Rattle.std.specs.Prelude.{◌≡◌, ◌^◌, ◌<◌, ◌≤◌, T, false};
ghost use Rattle.std.specs.Float.{binary64};
ghost use Rattle.std.specs.Float.Ieee.{fits, prec, round, of_int, to_signed, to_unsigned};
ghost use Rattle.whole.specs.Whole.{whole_of, away, to_even, downward};
ghost use Rattle.whole.specs.Fractions.{fraction_of};

use patterns::width::Width;
use patterns::{digits, pow2, power, shifted};

// w with a sign.
fn signed<F: Width>(s: bool, w: u64) -> F
    requires { w ≤ 2 ^ prec F.format }
    ensures { F.number result ≡ round F.format s w 1 }
{
    let y = F::of_whole(w);
    if s { y.negated() } else { y }
}

// d / 2 ^ shift to the nearest whole number, a tie upwards.
fn shifted_away(d: u64, shift: u64) -> u64
    requires d_bound { d < 2 ^ 53 }
    requires shift_nonzero { 0 < shift }
    ensures { result ≡ away false d (2 ^ shift) }
{
    if shift >= 64 {
        return 0;
    }
    (d + pow2(shift - 1)) / pow2(shift)
}

// d / 2 ^ shift of a value with the sign s, to a whole number toward minus infinity.
fn shifted_down(s: bool, d: u64, shift: u64) -> u64
    requires { d < 2 ^ 53 }
    ensures { result ≡ downward s d (2 ^ shift) }
{
    if shift >= 64 {
        return if s { u64::min(1, d) } else { 0 };
    }
    let u = pow2(shift);
    let q = d / u;
    if s { q + u64::min(1, d % u) } else { q }
}

// A float by its digits below the point: its sign, its digits and how far to the right of the
// highest they reach.
#[derive(Clone, Copy)]
pub struct Fraction {
    pub negative: bool,
    pub digits: u64,
    pub shift: u64,
}

// A NaN and an infinity have none, nor has a float that is too large for them.
#[tactic(auto, unfolding(crate::specs::Fractions::fraction_of))]
fn split<F: Width>(x: F) -> Option<Fraction>
    ensures value { result ≡ fraction_of F.format (F.number x) }
    ensures held { T (fits F.format (F.number x)) }
{
    let b = x.pattern();
    if x.is_nan() {
        return None;
    }
    let p = power::<F>(b);
    if p >= F::LOWEST {
        return None;
    }
    Some(Fraction {
        negative: b >= F::SIGN,
        digits: digits::<F>(b),
        shift: F::LOWEST - p,
    })
}

// A half goes away from zero.
pub fn round(x: f64) -> f64
    ensures { result ≡ whole_of away binary64 x }
{
    let Some(f) = split(x) else {
        return x;
    };
    signed(f.negative, shifted_away(f.digits, f.shift))
}

// A half goes to the even number.
pub fn round_ties_even(x: f64) -> f64
    ensures { result ≡ whole_of to_even binary64 x }
{
    let Some(f) = split(x) else {
        return x;
    };
    signed(f.negative, shifted(f.digits, f.shift))
}

pub fn floor<F: Width>(x: F) -> F
    ensures { F.number result ≡ whole_of downward F.format (F.number x) }
{
    let Some(f) = split(x) else {
        return x;
    };
    signed(f.negative, shifted_down(f.negative, f.digits, f.shift))
}

// The `f64` nearest to n, a tie to the even one.
pub fn from_i64(n: i64) -> f64
    ensures { result ≡ of_int binary64 n }
{
    std::num::nearest_i64_to_f64(n)
}

// Toward zero, saturated; a NaN gives 0.
pub fn to_i64(x: f64) -> i64
    ensures { result ≡ to_signed 63 x }
{
    std::num::saturating_f64_to_i64(x)
}

pub fn to_i32(x: f32) -> i32
    ensures { result ≡ to_signed 31 x }
{
    std::num::saturating_f32_to_i32(x)
}

pub fn to_u8(x: f32) -> u8
    ensures { result ≡ to_unsigned 8 x }
{
    std::num::saturating_f32_to_u8(x)
}
