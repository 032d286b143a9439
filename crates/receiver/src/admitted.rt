// Whether a call may work on a state.
ghost use Rattle.std.specs.Prelude.{◌≡◌};
ghost use Rattle.receiver.specs.Admitted.{admitted_of};

use checks::admitted;
use receiver_state::state::Receiver;

pub fn is_admitted(r: &Receiver) -> bool
    ensures { result ≡ admitted_of r.now }
{
    admitted::is_admitted(
        r.total,
        r.front,
        r.chain,
        r.second,
        &r.planes.decisions.parents,
        &r.ancestors,
    )
}
