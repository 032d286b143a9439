// The hypotenuse: an infinity wins over a NaN.
ghost use Rattle.std.specs.Prelude.{◌≡◌, not, T, is_nan};
ghost use Rattle.std.specs.Float.{binary32, binary64};
ghost use Rattle.numbers.specs.Numbers.{convert};
ghost use Rattle.numbers.specs.Root.{sqrt_of};
ghost use Rattle.routines.specs.Hypotenuse as Hypotenuse;

use numbers::narrow::{narrow, widen};
use roots::sqrt;

fn is_infinite(x: f32) -> bool
    ensures { result ≡ Hypotenuse.infinite x }
{
    if x == 1.0 / 0.0 {
        true
    } else {
        x == -1.0 / 0.0
    }
}

// Close to the root of s: half the pattern, which halves the exponent, then Heron's rule three
// times. It promises nothing, and nothing rests on it but speed.
fn near_root(s: f64) -> f64
    requires { T (not (is_nan s)) }
{
    let half = f64::to_bits(s) % 0x8000_0000_0000_0000 / 2;
    let r0 = f64::from_bits(half + 0x1ff7_a3be_a91d_9b1b);
    let r1 = 0.5 * (r0 + s / r0);
    let r2 = 0.5 * (r1 + s / r1);
    0.5 * (r2 + s / r2)
}

// Whether the root of s lies between low and high, by squares.
fn encloses(low: f64, s: f64, high: f64) -> bool
    ensures { result ≡ Hypotenuse.encloses_of low s high }
{
    (0.0 < low) & (0.0 < high) & (low * low < s) & (s < high * high)
}

// The root of s, narrowed: where both ends of what encloses it narrow to one value, that value.
fn narrow_root(s: f64) -> f32
    ensures { result ≡ convert binary32 (sqrt_of binary64 s) }
{
    if s != s {
        return 0.0 / 0.0;
    }
    let q = near_root(s);
    let low = q * 0.999999999999;
    let high = q * 1.000000000001;
    if encloses(low, s, high) {
        let v = narrow(low);
        if v == narrow(high) {
            return v;
        }
    }
    narrow(sqrt(s))
}

fn root_of_squares(x: f32, y: f32) -> f32
    ensures { result ≡ Hypotenuse.root_of_squares x y }
{
    let a = widen(x);
    let b = widen(y);
    narrow_root(a * a + b * b)
}

pub fn hypotenuse(x: f32, y: f32) -> f32
    ensures { result ≡ Hypotenuse.hypotenuse_of x y }
{
    if is_infinite(x) {
        return 1.0 / 0.0;
    }
    if is_infinite(y) {
        return 1.0 / 0.0;
    }
    root_of_squares(x, y)
}
