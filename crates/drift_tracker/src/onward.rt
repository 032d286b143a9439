// The taps one symbol on.
ghost use Rattle.std.specs.Prelude.{◌≡◌};
ghost use Rattle.complex.specs.Lends.{Leaves};
ghost use Rattle.drift_tracker.specs.Drift.{advanced_of};

use super::DRIFTS;
use channels::CHANNELS;

// Each tap goes on by its drift.
pub fn advance(real: &mut [f32; CHANNELS], imaginary: &mut [f32; CHANNELS], drift: &[f32; DRIFTS])
    ensures { Leaves real imaginary (λ before after. after ≡ advanced_of before drift.now) }
{
    for k in 0..CHANNELS {
        real[k] += drift[k];
        imaginary[k] += drift[k + 256];
    }
}
