// A fresh receiver for a rate and an offset, or a refusal.
ghost use Rattle.std.specs.Prelude.{◌≡◌};
ghost use Rattle.receiver_state.specs.State.{fresh_front};
ghost use Rattle.receiver.specs.Setup.{setup_now, setup_of};
ghost use Rattle.receiver.specs.Told.{state_told};

use checks::refusal::Refusal;
use checks::setup::{offset_is_refused, rate_is_refused};
use front::FrontPlace;
use receiver_state::state::Receiver;
use resampler::dimensions::{Dimensions, sized};

fn front_at(rate: f64, offset: f64, d: Dimensions) -> FrontPlace
    ensures { result ≡ fresh_front rate offset d }
{
    let oscillator = oscillator::fresh(rate, offset);
    let decimator = decimator::fresh(d.decimation);
    let resampler = resampler::dimensions::fresh(d);
    FrontPlace {
        oscillator,
        decimator,
        resampler,
    }
}

// For `rate` samples a second and a channel `offset` hertz from their middle; writes the first 32 c
// places of the table. Profile 1 is the conjugated one.
pub fn set_up(rate: f64, offset: f64, profile: i32, table: &mut [f32]) -> Result<Receiver, Refusal>
    ensures { setup_now result table.new ≡ setup_of rate offset profile table.old }
{
    if rate_is_refused(rate) {
        return Err(Refusal::Rate);
    }
    if offset_is_refused(rate, offset) {
        return Err(Refusal::Offset);
    }
    let d = sized(rate);
    if table.len() < 32 * d.arm {
        return Err(Refusal::Table);
    }
    resampler::design::write_table(d.arm, d.rate, table);
    let front = front_at(rate, offset, d);
    Ok(receiver_state::state::fresh(front, profile))
}

// The state that a setup's answer tells: of a refused one the state of zeros, which every call refuses.
pub fn told(answer: Result<Receiver, Refusal>) -> Receiver
    ensures { result ≡ state_told answer }
{
    answer.unwrap_or(receiver_state::state::zero())
}
