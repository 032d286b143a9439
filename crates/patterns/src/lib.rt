// Powers of two, shifts that round, and the parts of a float's bit pattern.
#![tactic(auto)]

pub mod width;

ghost use Rattle.std.specs.Prelude.{◌≡◌, ◌-◌, ◌^◌, ◌<◌, ◌≤◌};
ghost use Prim.Native.Nat as Nat;
ghost use Rattle.std.specs.Float.Ieee.Nearest.{closest};
ghost use Rattle.laws.specs.FloatParts.{digits_of, power_of};

use crate::width::Width;

// 2 to the power k.
pub fn pow2(k: u64) -> u64
    requires { k < 64 }
    ensures { result ≡ 2 ^ k }
{
    1 << k
}

// n / 2 ^ shift to the nearest whole number, a tie to the even one.
pub fn shifted(n: u64, shift: u64) -> u64
    requires n_bound { 64 ≤ shift → n < 2 ^ 63 }
    requires shift_nonzero { 0 < shift }
    ensures { result ≡ closest n (2 ^ shift) }
{
    if shift >= 64 {
        return 0;
    }
    let unit = pow2(shift);
    let quotient = n / unit;
    let rest = n % unit;
    let half = pow2(shift - 1);
    if rest < half {
        quotient
    } else if half < rest {
        quotient + 1
    } else {
        quotient + quotient % 2
    }
}

// The size that a pattern below the infinity's stands for is digits * 2 ^ power of the smallest
// values.
pub fn digits<F: Width>(b: u64) -> u64
    ensures { result ≡ digits_of F.format b }
{
    let trailing = b % F::HIDDEN;
    if b % F::SIGN / F::HIDDEN == 0 {
        trailing
    } else {
        trailing + F::HIDDEN
    }
}

pub fn power<F: Width>(b: u64) -> u64
    ensures { result ≡ power_of F.format b }
{
    (b % F::SIGN / F::HIDDEN).saturating_sub(1)
}
