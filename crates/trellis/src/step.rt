// One step of the trellis: the costs go from before to after, and each state has its parent and its
// prediction.
ghost use Rattle.std.specs.Prelude.{◌≡◌, ◌*◌, ◌<◌, length};
ghost use Rattle.complex.specs.Lends.{Reads};
ghost use Rattle.channels.specs.Channels.{Parents};
ghost use Rattle.arrivals.specs.Arrivals.{arrival_of};
ghost use Rattle.trellis.specs.Trellis.{advanced_of};
ghost use Rattle.arrivals.specs.Layout.{swept_of};
ghost use Rattle.trellis.specs.Layout.{Values};
ghost use Rattle.arrivals.specs.Lends.{Lays, Fills};
ghost use Rattle.trellis.specs.Lends.{Leaves};

use super::best::{cheapest, take_off};
use arrivals::branch::branches;
use arrivals::choice::{choose, interleave, interleave_priors};
use channels::predict::past_terms;
use channels::symbols::symbol;
use channels::{CHANNELS, PAST_TERMS, STATES};
use complex::Complex32;

// The first cheapest branches by the symbol k, laid at 16 k and after it.
fn sweep(
    real: &[f32; CHANNELS],
    imaginary: &[f32; CHANNELS],
    past_real: &[f32; PAST_TERMS],
    past_imaginary: &[f32; PAST_TERMS],
    costs: &[f32],
    k: usize,
    input: Complex32,
    reliable: bool,
    sums: &mut [f32; STATES],
    prediction_real: &mut [f32; STATES],
    prediction_imaginary: &mut [f32; STATES],
    cost: &mut [f32; STATES],
    prior: &mut [u32; STATES],
    chosen_real: &mut [f32; STATES],
    chosen_imaginary: &mut [f32; STATES],
)
    requires k_of_four { k < 4 }
    requires costs_len { length costs.now ≡ 64 }
    ensures { Reads real imaginary (λ channels. Reads past_real past_imaginary (λ past.
        Lays cost prior chosen_real chosen_imaginary (16 * k) (swept_of channels past costs.now input reliable k))) }
{
    branches(
        real,
        imaginary,
        past_real,
        past_imaginary,
        costs,
        symbol(k as u32),
        input,
        reliable,
        sums,
        prediction_real,
        prediction_imaginary,
    );
    choose(
        sums,
        prediction_real,
        prediction_imaginary,
        16 * k,
        cost,
        prior,
        chosen_real,
        chosen_imaginary,
    );
}

// Costs before to costs after, before the best state's is taken off. The costs are lent as a slice,
// of which each element is known to be a value of an f32: then no sum is -0.
fn extend(
    real: &[f32; CHANNELS],
    imaginary: &[f32; CHANNELS],
    input: Complex32,
    reliable: bool,
    costs: &mut [f32],
    parents: &mut [u8; STATES],
    prediction_real: &mut [f32; STATES],
    prediction_imaginary: &mut [f32; STATES],
)
    requires { length costs.old ≡ 64 }
    ensures reads { Reads real imaginary (λ channels.
        Fills costs parents prediction_real prediction_imaginary (arrival_of channels costs.old input reliable)) }
    ensures values { Values costs.old }
{
    let mut past_real = [0.0; PAST_TERMS];
    let mut past_imaginary = [0.0; PAST_TERMS];
    past_terms(real, imaginary, &mut past_real, &mut past_imaginary);
    let mut sums = [0.0; STATES];
    let mut branch_real = [0.0; STATES];
    let mut branch_imaginary = [0.0; STATES];
    let mut cost = [0.0; STATES];
    let mut prior = [0; STATES];
    let mut chosen_real = [0.0; STATES];
    let mut chosen_imaginary = [0.0; STATES];
    for k in 0..4 {
        sweep(
            real,
            imaginary,
            &past_real,
            &past_imaginary,
            costs,
            k,
            input,
            reliable,
            &mut sums,
            &mut branch_real,
            &mut branch_imaginary,
            &mut cost,
            &mut prior,
            &mut chosen_real,
            &mut chosen_imaginary,
        );
    }
    interleave(&cost, costs);
    interleave_priors(&prior, parents);
    interleave(&chosen_real, prediction_real);
    interleave(&chosen_imaginary, prediction_imaginary);
}

// One step: gives the best state.
pub fn advance(
    real: &[f32; CHANNELS],
    imaginary: &[f32; CHANNELS],
    input: Complex32,
    reliable: bool,
    costs: &mut [f32; STATES],
    parents: &mut [u8; STATES],
    prediction_real: &mut [f32; STATES],
    prediction_imaginary: &mut [f32; STATES],
) -> usize
    ensures reads { Reads real imaginary (λ channels.
        Leaves result costs parents prediction_real prediction_imaginary (λ after. after ≡ advanced_of channels costs.old input reliable)) }
    ensures near { (result < 64) × Parents parents.new }
{
    extend(
        real,
        imaginary,
        input,
        reliable,
        costs,
        parents,
        prediction_real,
        prediction_imaginary,
    );
    let b = cheapest(costs);
    take_off(costs, b.cost);
    b.state
}
