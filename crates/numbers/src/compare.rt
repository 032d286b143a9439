// Signs, the smaller and the larger, and a value kept within a range.
ghost use Rattle.std.specs.Prelude.{◌≡◌, is_nan};
ghost use Rattle.numbers.specs.Numbers.{is_finite, sign_of, abs_of, min_of, max_of, clamp_of};

use patterns::width::Width;

pub fn is_nan<F: Width>(x: F) -> bool
    ensures { result ≡ is_nan (F.number x) }
{
    x.is_nan()
}

pub fn is_finite<F: Width>(x: F) -> bool
    ensures { result ≡ is_finite (F.number x) }
{
    x.is_finite()
}

// The sign, of a zero too; a NaN has none.
pub fn is_negative<F: Width>(x: F) -> bool
    ensures { result ≡ sign_of (F.number x) }
{
    !x.is_nan() & (x.pattern() >= F::SIGN)
}

// The sign's bit is cleared.
pub fn abs<F: Width>(x: F) -> F
    ensures { F.number result ≡ abs_of (F.number x) }
{
    if x.is_nan() {
        x
    } else {
        F::of_pattern(x.pattern() % F::SIGN)
    }
}

// The smaller: a NaN is passed over, and of unlike zeros -0 is the smaller.
#[tactic(auto, unfolding(crate::specs::Numbers::min_of))]
pub fn min<F: Width>(x: F, y: F) -> F
    ensures { F.number result ≡ min_of (F.number x) (F.number y) }
{
    if x.is_nan() {
        y
    } else if y.is_nan() {
        x
    } else if x.is_below(y) {
        x
    } else if y.is_below(x) {
        y
    } else if is_negative(x) {
        x
    } else {
        y
    }
}

// The larger: a NaN is passed over, and of unlike zeros +0 is the larger.
#[tactic(auto, unfolding(crate::specs::Numbers::max_of))]
pub fn max<F: Width>(x: F, y: F) -> F
    ensures { F.number result ≡ max_of (F.number x) (F.number y) }
{
    if x.is_nan() {
        y
    } else if y.is_nan() {
        x
    } else if y.is_below(x) {
        x
    } else if x.is_below(y) {
        y
    } else if is_negative(x) {
        y
    } else {
        x
    }
}

// x, or the end of low..high that it lies beyond; a NaN stays.
#[tactic(auto, unfolding(crate::specs::Numbers::clamp_of))]
pub fn clamp<F: Width>(x: F, low: F, high: F) -> F
    ensures { F.number result ≡ clamp_of (F.number x) (F.number low) (F.number high) }
{
    if x.is_below(low) {
        low
    } else if high.is_below(x) {
        high
    } else {
        x
    }
}
