// Narrowing, right to the last bit and rounded once, and widening.
ghost use Rattle.std.specs.Prelude.{◌≡◌, ◌*◌, ◌%◌, ◌^◌, ◌<◌, ◌≤◌, false, if◌then◌else◌, nat_le};
ghost use Rattle.std.specs.Float.{binary32, binary64};
ghost use Rattle.std.specs.Float.Ieee.{round};
ghost use Rattle.laws.specs.FloatParts.{digits_of, power_of};
ghost use Rattle.numbers.specs.Numbers.{convert};
ghost use Rattle.numbers.specs.Rare.{rare};

use patterns::{digits, pow2, power, shifted};

// The same number at the wider format; a NaN stays one.
pub fn widen(x: f32) -> f64
    ensures { result ≡ x }
{
    std::num::f32_to_f64_with_nan(x)
}

fn sign32(s: bool) -> u32
    ensures { result ≡ (if s then 0x8000_0000 else 0) }
{
    if s { 0x8000_0000 } else { 0 }
}

// d * 2 ^ e smallest values of an `f64`, as an `f32`: the highest one bit of d is counted and moved
// to a fixed place, and what lies below the last digit kept is rounded off.
fn narrow_finite(s: bool, d: u64, e: u64) -> f32
    requires d_bound { d < 2 ^ 53 }
    requires bound { 0 < e → 2 ^ 52 ≤ d }
    requires e_bound { e ≤ 2045 }
    ensures { result ≡ round binary32 s (d * 2 ^ e) (2 ^ 1074) }
{
    let z = d.leading_zeros() as u64;
    let n = d * pow2(z - 1);
    let k = e.saturating_sub(z + 885);
    let q = shifted(n, k + z + 924 - e);
    let p = (k * 0x80_0000 + q).min(0x7f80_0000);
    f32::from_bits(sign32(s) + (p as u32))
}

// Whether a magnitude, its bits given, is no normal f32 once rounded: below 2 ^ -126, or so large
// that it becomes an infinity.
fn is_rare(magnitude: u64) -> bool
    ensures { result ≡ rare magnitude }
{
    (magnitude < 0x3810_0000_0000_0000) | (magnitude >= 0x47ef_ffff_f000_0000)
}

// The everyday case: the exponent's bias is exchanged, and the digits are rounded in place by adding
// just under half of what the last digit kept is worth, or half where that digit is odd.
fn narrow_everyday(b: u64) -> f32
    requires { rare (b % 2 ^ 63) ≡ false }
    ensures { result ≡ round binary32 (nat_le (2 ^ 63) b) (digits_of binary64 b * 2 ^ power_of binary64 b) (2 ^ 1074) }
{
    let t = b % 0x8000_0000_0000_0000 - 0x3800_0000_0000_0000;
    let z = (t + 0xfff_ffff + t / 0x2000_0000 % 2) / 0x2000_0000;
    f32::from_bits((b / 0x8000_0000_0000_0000 * 0x8000_0000 + z) as u32)
}

// NaN first, then the infinities, then what is rare, and the everyday case last.
pub fn narrow(x: f64) -> f32
    ensures { result ≡ convert binary32 x }
{
    if x != x {
        return 0.0 / 0.0;
    }
    let b = f64::to_bits(x);
    let magnitude = b % 0x8000_0000_0000_0000;
    if magnitude == 0x7ff0_0000_0000_0000 {
        return f32::from_bits(sign32(b >= 0x8000_0000_0000_0000) + 0x7f80_0000);
    }
    if is_rare(magnitude) {
        return narrow_finite(
            b >= 0x8000_0000_0000_0000,
            digits::<f64>(b),
            power::<f64>(b),
        );
    }
    narrow_everyday(b)
}
