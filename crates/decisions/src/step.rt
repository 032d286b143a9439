// One symbol through carrier and detector, and what they make of it into the view.
ghost use Rattle.std.specs.Prelude.{◌≡◌};
ghost use Rattle.decisions.specs.Decisions.{Step, decided_of};
ghost use Rattle.decisions.specs.Ranges.{Ranged};
ghost use Rattle.decisions.specs.Lends.{Given, Leaves};

use super::DecisionsPlace;
use answers::PARENTS;
use answers::soft::Soft;
use answers::walk::Dibit;
use channels::{CHANNELS, STATES};
use complex::Complex32;
use signal::{POINTS, push};

// The places after a symbol, the symbol's soft record, and what the detector answered to it.
#[derive(Clone, Copy)]
pub struct Stepped {
    pub place: DecisionsPlace,
    pub soft: Option<Soft>,
    pub answer: Option<Dibit>,
}

// One symbol: through carrier and detector, and what they make of it into the view. `oldest` is the
// soft record of 31 symbols before.
pub fn step(
    p: DecisionsPlace,
    symbol: Complex32,
    reliable: bool,
    oldest: Option<Soft>,
    channel_real: &mut [f32; CHANNELS],
    channel_imaginary: &mut [f32; CHANNELS],
    costs: &mut [f32; STATES],
    parents: &mut [u8; PARENTS],
    view_real: &mut [f32; POINTS],
    view_imaginary: &mut [f32; POINTS],
) -> Stepped
    requires { Given p channel_real channel_imaginary costs parents view_real view_imaginary Ranged }
    ensures { Leaves p result.place channel_real channel_imaginary costs parents view_real view_imaginary
        (λ b a. ◌≡◌ {A = Step} (record { state = a; soft = result.soft; answer = result.answer }) (decided_of b symbol reliable oldest)) }
{
    let c = lms_carrier::step(
        p.carrier,
        symbol,
        reliable,
        oldest,
        channel_real,
        channel_imaginary,
        costs,
        parents,
    );
    let view = push(p.view, c.equalized, view_real, view_imaginary);
    Stepped {
        place: DecisionsPlace {
            carrier: c.place,
            view,
        },
        soft: c.soft,
        answer: c.answer,
    }
}
