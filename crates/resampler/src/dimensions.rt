// What follows from the input's rate: the decimation, the rate after it, the arm length and the step.
ghost use Rattle.std.specs.Prelude.{◌≡◌};
ghost use Prim.Native.Nat as Nat;
ghost use Rattle.resampler.specs.Dimensions.{nearest_of, sized_of, fresh_of};
ghost use Rattle.resampler.specs.Admitted.{Countable, AdmittedRate, Sized};

use super::pass::Resampler;
use whole::round;

// What setup fixes for a rate.
#[derive(Clone, Copy)]
pub struct Dimensions {
    // 1 to 78
    pub decimation: usize,
    // taps an arm: 14 to 576
    pub arm: usize,
    // values a second after decimation
    pub rate: f64,
}

// The larger of the two.
fn at_least(n: u64, bound: u64) -> u64
    ensures { result ≡ Nat.max n bound }
{
    if n < bound { bound } else { n }
}

// To the nearest whole number, a half away from zero.
fn nearest(x: f64) -> u64
    requires { Countable x }
    ensures { result ≡ nearest_of x }
{
    std::num::truncating_f64_to_u64(round(x))
}

// For 9,600 to 20,000,000 samples a second: the decimation that comes nearest to 256,000 values a second,
// and arms that span 1.5 milliseconds of them.
pub fn sized(rate: f64) -> Dimensions
    requires { AdmittedRate rate }
    ensures same { result ≡ sized_of rate }
    ensures ranges { Sized result }
{
    let decimation = at_least(nearest(rate / 256000.0), 1);
    let decimated = rate / std::num::nearest_u64_to_f64(decimation);
    let arm = at_least(nearest(0.0015 * decimated), 8);
    Dimensions {
        decimation: decimation as usize,
        arm: arm as usize,
        rate: decimated,
    }
}

// Nothing has come in; the first output lies half an arm in.
pub fn fresh(dimensions: Dimensions) -> Resampler
    ensures { result ≡ fresh_of dimensions }
{
    let half = dimensions.arm / 2;
    Resampler {
        arm: dimensions.arm,
        half,
        step: dimensions.rate / 19200.0,
        index: 0,
        next: std::num::nearest_u64_to_f64(half as u64),
        write: 0,
    }
}
