// A part of a sample as a whole number: times 32,768, a half away from zero, saturated at 64 bits.
ghost use Rattle.std.specs.Prelude.{◌≡◌, true, false};
ghost use Rattle.decimator.specs.Decimator.{quantised_of};
ghost use Rattle.decimator.specs.Quantiser.{within};

use numbers::narrow::widen;
use whole::to_i64;

fn is_within(x: f32) -> bool
    ensures { result ≡ within x }
{
    (x > -512.0) & (x < 512.0)
}

// The product with 32768 + 2^-11 is exact. It stands where the product with 32,768 stands between
// two halves, but on the far side of a half that the latter meets. Adding and subtracting 3 * 2^51
// then rounds it to the nearest whole number.
fn rounded(x: f32) -> i64
    requires { within x ≡ true }
    ensures { result ≡ quantised_of x }
{
    (((x as f64) * 32768.00048828125 + 6755399441055744.0) - 6755399441055744.0) as i64
}

// From 512 on the product with 32,768 is whole.
fn saturated(x: f32) -> i64
    requires { within x ≡ false }
    ensures { result ≡ quantised_of x }
{
    to_i64(widen(x) * 32768.0)
}

// A NaN gives 0.
pub fn quantised(x: f32) -> i64
    ensures { result ≡ quantised_of x }
{
    if is_within(x) {
        rounded(x)
    } else {
        saturated(x)
    }
}
