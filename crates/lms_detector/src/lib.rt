// The detector with the first tracker: the skeleton takes its step with the channels as they stand,
// and then the channels follow by LMS steps what was received.
#![tactic(auto)]

ghost use Rattle.std.specs.Prelude.{◌≡◌};
ghost use Rattle.lms_detector.specs.Detector.{detected_of};
ghost use Rattle.lms_detector.specs.Ranges.{Ranged, RangedAfter};
ghost use Rattle.lms_detector.specs.Lends.{Leaves};

use answers::PARENTS;
use answers::soft::Soft;
use channels::{CHANNELS, STATES};
use complex::Complex32;
use lms_tracker::follow;
use sequence::step::{Detected, DetectorPlace};

// One step. `oldest` is the soft record of 31 steps before; the caller puts the step's own in the
// slot `write`.
pub fn step(
    d: DetectorPlace,
    input: Complex32,
    reliable: bool,
    oldest: Option<Soft>,
    channel_real: &mut [f32; CHANNELS],
    channel_imaginary: &mut [f32; CHANNELS],
    costs: &mut [f32; STATES],
    parents: &mut [u8; PARENTS],
) -> Detected
    requires { Ranged d channel_real.old channel_imaginary.old costs.old parents.old }
    ensures { Leaves result channel_real channel_imaginary costs parents
        (λ channels held table after. (after ≡ detected_of d input reliable oldest channels held table) × RangedAfter after) }
{
    let mut row = [0; STATES];
    let mut prediction_real = [0.0; STATES];
    let mut prediction_imaginary = [0.0; STATES];
    let detected = sequence::step::step(
        d,
        input,
        reliable,
        oldest,
        channel_real,
        channel_imaginary,
        costs,
        parents,
        &mut row,
        &mut prediction_real,
        &mut prediction_imaginary,
    );
    follow(
        channel_real,
        channel_imaginary,
        &row,
        &prediction_real,
        &prediction_imaginary,
        input,
        reliable,
    );
    detected
}
