// The second tracker put to work beside the first.
ghost use Rattle.std.specs.Prelude.{◌≡◌};
ghost use Rattle.receiver.specs.Enable.{enabled_now, enable_of};

use super::admitted::is_admitted;
use answers::PARENTS;
use checks::refusal::Refusal;
use receiver_state::state::Receiver;

// The second tracker starts fresh and takes nothing over from the first. Where it is enabled already, or
// the state is refused, the state stays as it is.
pub fn enable(r: &mut Receiver) -> Result<(), Refusal>
    ensures { enabled_now result r.new ≡ enable_of r.old }
{
    if !is_admitted(r) {
        return Err(Refusal::State);
    }
    if !r.second.enabled {
        r.second = second::fresh();
        r.memory = second::fresh_memory();
        r.ancestors = [0; PARENTS];
    }
    Ok(())
}
