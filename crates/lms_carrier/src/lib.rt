// The carrier around the detector with the first tracker: a symbol is corrected, the detector takes its
// step with it, and the loop follows.
#![tactic(auto)]

ghost use Rattle.std.specs.Prelude.{◌≡◌};
ghost use Rattle.lms_carrier.specs.Carrier.{carried_of};
ghost use Rattle.lms_carrier.specs.Ranges.{Ranged, RangedAfter};
ghost use Rattle.lms_carrier.specs.Lends.{Leaves};

use answers::PARENTS;
use answers::soft::Soft;
use carrier::{Carried, CarrierPlace, carry, corrected};
use channels::{CHANNELS, STATES};
use complex::Complex32;

// One symbol. `oldest` is the soft record of 31 steps before; the caller puts the step's own in the
// detector's slot.
pub fn step(
    c: CarrierPlace,
    sample: Complex32,
    reliable: bool,
    oldest: Option<Soft>,
    channel_real: &mut [f32; CHANNELS],
    channel_imaginary: &mut [f32; CHANNELS],
    costs: &mut [f32; STATES],
    parents: &mut [u8; PARENTS],
) -> Carried
    requires { Ranged c channel_real.old channel_imaginary.old costs.old parents.old }
    ensures { Leaves result channel_real channel_imaginary costs parents
        (λ channels held table after. (after ≡ carried_of c sample reliable oldest channels held table) × RangedAfter after) }
{
    let input = corrected(c.turn, sample);
    let d = lms_detector::step(
        c.detector,
        input,
        reliable,
        oldest,
        channel_real,
        channel_imaginary,
        costs,
        parents,
    );
    carry(c.turn, d, reliable)
}
