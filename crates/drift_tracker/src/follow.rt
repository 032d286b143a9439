// The step of all 64 states, sixteen at a time.
ghost use Rattle.std.specs.Prelude.{◌≡◌, ◌<◌};
ghost use Rattle.complex.specs.Lends.{Reads};
ghost use Rattle.channels.specs.Channels.{Parents};
ghost use Rattle.least_squares.specs.Lanes.{in_group, inverse_of, inverses_of};
ghost use Rattle.drift_tracker.specs.Drift.{drifts_of, parent_of, followed_of};
ghost use Rattle.drift_tracker.specs.Layout.{in_fours, learnt_in, learnt_from};
ghost use Rattle.drift_tracker.specs.Lends.{Leaves};

use super::DRIFTS;
use super::lanes::{inherit, join, pull, split};
use super::regressor::{miss, regress};
use channels::{CHANNELS, STATES};
use complex::Complex32;
use inheriting::copied::inherit_inverses;
use inheriting::foretold::take_foretold;
use lane_sums::weigh::weigh;
use least_squares::{ALL, EIGHTS, FOURS, INVERSES, LANES, PAIRS};
use settling::group::settle_group;

// The sixteen states from 16 g on, whose taps and drifts are their parents' and whose parents' inverses stand
// one symbol on in the room.
fn learn(
    parents: &[u8; STATES],
    prediction_real: &[f32; STATES],
    prediction_imaginary: &[f32; STATES],
    input: Complex32,
    g: usize,
    w: &[f32; INVERSES],
    taps: &mut [f32; DRIFTS],
    drift: &mut [f32; DRIFTS],
    next: &mut [f32; ALL],
)
    requires g_of_four { g < 4 }
    requires states { Parents parents.now }
    ensures { Reads prediction_real prediction_imaginary (λ predictions.
        (taps.new ≡ in_fours g (λ s. (learnt_in w.now taps.old drift.old parents.now predictions input s).taps) taps.old)
        × (drift.new ≡ in_fours g (λ s. (learnt_in w.now taps.old drift.old parents.now predictions input s).drift) drift.old)
        × (next.new ≡ in_group g (λ s. (learnt_in w.now taps.old drift.old parents.now predictions input s).inverse) next.old)) }
{
    let mut u = [0.0; FOURS];
    regress(parents, g, &mut u);
    let mut error = [0.0; PAIRS];
    miss(input, prediction_real, prediction_imaginary, g, &mut error);
    let mut gain = [0.0; EIGHTS];
    let mut row = [0.0; EIGHTS];
    let mut weight = [0.0; LANES];
    weigh(w, &u, &mut gain, &mut row, &mut weight);
    pull(taps, &gain, 0, &error, &weight, g);
    pull(drift, &gain, 4, &error, &weight, g);
    settle_group(w, &gain, &row, &weight, g, next);
}

// All states, where the input is reliable.
fn learn_all(
    inverse: &[f32; ALL],
    parents: &[u8; STATES],
    prediction_real: &[f32; STATES],
    prediction_imaginary: &[f32; STATES],
    input: Complex32,
    taps: &mut [f32; DRIFTS],
    drift: &mut [f32; DRIFTS],
    next: &mut [f32; ALL],
)
    requires { Parents parents.now }
    ensures { Reads prediction_real prediction_imaginary (λ predictions.
        (taps.new ≡ drifts_of (λ s. (learnt_from taps.old drift.old inverse.now parents.now predictions input s).taps))
        × (drift.new ≡ drifts_of (λ s. (learnt_from taps.old drift.old inverse.now parents.now predictions input s).drift))
        × (next.new ≡ inverses_of (λ s. (learnt_from taps.old drift.old inverse.now parents.now predictions input s).inverse))) }
{
    let mut w = [0.0; INVERSES];
    for g in 0..4 {
        take_foretold(inverse, parents, g, &mut w);
        learn(
            parents,
            prediction_real,
            prediction_imaginary,
            input,
            g,
            &w,
            taps,
            drift,
            next,
        );
    }
}

// All inverses, where it is not: each state's is its parent's.
fn inherit_all(inverse: &[f32; ALL], parents: &[u8; STATES], next: &mut [f32; ALL])
    requires { Parents parents.now }
    ensures { next.new ≡ inverses_of (λ s. inverse_of inverse.now (parent_of parents.now s)) }
{
    for g in 0..4 {
        inherit_inverses(inverse, parents, g, next);
    }
}

// One step: the taps, their drift and the inverses after it, from those before, each state's parent and
// prediction, and the input. The taps have gone on by their drift where the input is reliable; the
// inverses after the step are left in `next`.
pub fn follow(
    channel_real: &mut [f32; CHANNELS],
    channel_imaginary: &mut [f32; CHANNELS],
    drift: &mut [f32; DRIFTS],
    inverse: &[f32; ALL],
    next: &mut [f32; ALL],
    parents: &[u8; STATES],
    prediction_real: &[f32; STATES],
    prediction_imaginary: &[f32; STATES],
    input: Complex32,
    reliable: bool,
)
    requires { Parents parents.now }
    ensures { Leaves channel_real channel_imaginary drift inverse next (λ before after. Reads prediction_real prediction_imaginary (λ predictions.
        after ≡ followed_of before parents.now predictions input reliable)) }
{
    let mut joined = [0.0; DRIFTS];
    join(channel_real, channel_imaginary, &mut joined);
    let mut taps = [0.0; DRIFTS];
    inherit(&joined, parents, &mut taps);
    let mut new = [0.0; DRIFTS];
    inherit(drift, parents, &mut new);
    if reliable {
        learn_all(
            inverse,
            parents,
            prediction_real,
            prediction_imaginary,
            input,
            &mut taps,
            &mut new,
            next,
        );
        split(&taps, channel_real, channel_imaginary);
        *drift = new;
    } else {
        inherit_all(inverse, parents, next);
        split(&taps, channel_real, channel_imaginary);
        *drift = new;
    }
}
