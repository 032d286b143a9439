// The detector with the second tracker: where the input is reliable the taps go on by their drift, then
// the skeleton takes its step with the channels as they stand, and then taps, drifts and inverses follow
// by least squares what was received.
#![tactic(auto)]

ghost use Rattle.std.specs.Prelude.{◌≡◌, length};
ghost use Rattle.complex.specs.Lends as Planes;
ghost use Rattle.drift_detector.specs.Detector.{channels_for, detected_of};
ghost use Rattle.drift_detector.specs.Ranges.{Ranged, RangedAfter};
ghost use Rattle.drift_detector.specs.Lends.{Given, Leaves};

use answers::PARENTS;
use answers::soft::Soft;
use channels::{CHANNELS, STATES};
use complex::Complex32;
use drift_tracker::DRIFTS;
use drift_tracker::follow::follow;
use drift_tracker::onward::advance;
use least_squares::ALL;
use sequence::step::{Detected, DetectorPlace};

// The channels that the step is made with.
fn ready(
    channel_real: &mut [f32; CHANNELS],
    channel_imaginary: &mut [f32; CHANNELS],
    drift: &[f32; DRIFTS],
    reliable: bool,
)
    requires { (length channel_real.old ≡ 256) × (length channel_imaginary.old ≡ 256) }
    ensures { Planes.Leaves channel_real channel_imaginary (λ before after.
        after ≡ channels_for before drift.now reliable) }
{
    if reliable {
        advance(channel_real, channel_imaginary, drift);
    }
}

// One step. `oldest` is the soft record of 31 steps before; the caller puts the step's own in the slot
// `write`. The inverses after the step are left in `next`.
pub fn step(
    d: DetectorPlace,
    input: Complex32,
    reliable: bool,
    oldest: Option<Soft>,
    channel_real: &mut [f32; CHANNELS],
    channel_imaginary: &mut [f32; CHANNELS],
    drift: &mut [f32; DRIFTS],
    inverse: &[f32; ALL],
    next: &mut [f32; ALL],
    costs: &mut [f32; STATES],
    parents: &mut [u8; PARENTS],
) -> Detected
    requires { Given channel_real channel_imaginary drift next (λ m. Ranged d m costs.old parents.old) }
    ensures { Leaves result channel_real channel_imaginary drift inverse next costs parents
        (λ memory held table after. (after ≡ detected_of d input reliable oldest memory held table) × RangedAfter after) }
{
    ready(channel_real, channel_imaginary, drift, reliable);
    let mut row = [0; STATES];
    let mut prediction_real = [0.0; STATES];
    let mut prediction_imaginary = [0.0; STATES];
    let detected = sequence::step::step(
        d,
        input,
        reliable,
        oldest,
        channel_real,
        channel_imaginary,
        costs,
        parents,
        &mut row,
        &mut prediction_real,
        &mut prediction_imaginary,
    );
    follow(
        channel_real,
        channel_imaginary,
        drift,
        inverse,
        next,
        &row,
        &prediction_real,
        &prediction_imaginary,
        input,
        reliable,
    );
    detected
}
