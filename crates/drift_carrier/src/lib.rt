// The carrier around the detector with the second tracker: a symbol is corrected, the detector takes its
// step with it, and the loop follows.
#![tactic(auto)]

ghost use Rattle.std.specs.Prelude.{◌≡◌};
ghost use Rattle.drift_detector.specs.Lends.{Given};
ghost use Rattle.drift_carrier.specs.Carrier.{carried_of};
ghost use Rattle.drift_carrier.specs.Ranges.{Ranged, RangedAfter};
ghost use Rattle.drift_carrier.specs.Lends.{Leaves};

use answers::PARENTS;
use answers::soft::Soft;
use carrier::{Carried, CarrierPlace, carry, corrected};
use channels::{CHANNELS, STATES};
use complex::Complex32;
use drift_tracker::DRIFTS;
use least_squares::ALL;

// One symbol. `oldest` is the soft record of 31 steps before; the caller puts the step's own in the
// detector's slot. The inverses after the step are left in `next`.
pub fn step(
    c: CarrierPlace,
    sample: Complex32,
    reliable: bool,
    oldest: Option<Soft>,
    channel_real: &mut [f32; CHANNELS],
    channel_imaginary: &mut [f32; CHANNELS],
    drift: &mut [f32; DRIFTS],
    inverse: &[f32; ALL],
    next: &mut [f32; ALL],
    costs: &mut [f32; STATES],
    parents: &mut [u8; PARENTS],
) -> Carried
    requires { Given channel_real channel_imaginary drift next (λ m. Ranged c m costs.old parents.old) }
    ensures { Leaves result channel_real channel_imaginary drift inverse next costs parents
        (λ memory held table after. (after ≡ carried_of c sample reliable oldest memory held table) × RangedAfter after) }
{
    let input = corrected(c.turn, sample);
    let d = drift_detector::step(
        c.detector,
        input,
        reliable,
        oldest,
        channel_real,
        channel_imaginary,
        drift,
        inverse,
        next,
        costs,
        parents,
    );
    carry(c.turn, d, reliable)
}
