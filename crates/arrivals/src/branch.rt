// What each prior's branch by one symbol costs, and what it predicts.
ghost use Rattle.std.specs.Prelude.{◌≡◌, ◌<◌, length};
ghost use Rattle.laws.specs.Places.{upto};
ghost use Rattle.complex.specs.Lends.{Reads};
ghost use Rattle.arrivals.specs.Arrivals.{capped_of, metric_of};
ghost use Rattle.arrivals.specs.Layout.{sum_with, real_with, imaginary_with};

use channels::predict::predicted;
use channels::{CHANNELS, PAST_TERMS, STATES};
use complex::{Complex32, power, subtracted};

// The most that a branch's metric can be.
const CAP: f32 = 16.0;

// At most the cap; a NaN gives the cap.
fn capped(e: f32) -> f32
    ensures { result ≡ capped_of e }
{
    if e < CAP { e } else { CAP }
}

// The squared distance, capped. An unreliable input is no evidence.
fn metric(input: Complex32, prediction: Complex32, reliable: bool) -> f32
    ensures { result ≡ metric_of input prediction reliable }
{
    if reliable {
        capped(power(subtracted(input, prediction)))
    } else {
        0.0
    }
}

// From each prior by the symbol s: the prediction, and the cost so far with the metric.
pub fn branches(
    real: &[f32; CHANNELS],
    imaginary: &[f32; CHANNELS],
    past_real: &[f32; PAST_TERMS],
    past_imaginary: &[f32; PAST_TERMS],
    costs: &[f32],
    s: Complex32,
    input: Complex32,
    reliable: bool,
    sums: &mut [f32; STATES],
    prediction_real: &mut [f32; STATES],
    prediction_imaginary: &mut [f32; STATES],
)
    requires { length costs.now ≡ 64 }
    ensures { Reads real imaginary (λ channels. Reads past_real past_imaginary (λ past.
        (sums.new ≡ upto (sum_with channels past costs.now s input reliable) 64)
        × (prediction_real.new ≡ upto (real_with channels past s) 64)
        × (prediction_imaginary.new ≡ upto (imaginary_with channels past s) 64))) }
{
    for p in 0..64 {
        let prediction = predicted(real, imaginary, past_real, past_imaginary, s, p);
        let m = metric(input, prediction, reliable);
        sums[p] = costs[p] + m;
        prediction_real[p] = prediction.real;
        prediction_imaginary[p] = prediction.imaginary;
    }
}
