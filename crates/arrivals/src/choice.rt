// The first cheapest of the four branches that lead to a state.
ghost use Rattle.std.specs.Prelude.{◌≡◌, ◌+◌, ◌*◌, ◌/◌, ◌%◌, ◌<◌, ◌≤◌, length, get_or};
ghost use Rattle.std.specs.Float.{nan};
ghost use Rattle.laws.specs.Places.{upto};
ghost use Rattle.channels.specs.Channels.{Parents};
ghost use Rattle.arrivals.specs.Layout.{cheaper_of, first_cheapest_of};
ghost use Rattle.arrivals.specs.Lends.{Lays};

use channels::STATES;

// A branch to a state: what it costs so far, the prior that it comes from, and what that predicts.
#[derive(Clone, Copy)]
pub struct Branch {
    pub cost: f32,
    pub prior: u32,
    pub real: f32,
    pub imaginary: f32,
}

// The cheaper of a branch and a further prior's: the earlier of equals.
fn cheaper(
    b: Branch,
    sums: &[f32; STATES],
    real: &[f32; STATES],
    imaginary: &[f32; STATES],
    prior: usize,
) -> Branch
    requires { prior < 64 }
    ensures { result ≡ cheaper_of b sums.now real.now imaginary.now prior }
{
    let cost = sums[prior];
    if cost < b.cost {
        Branch {
            cost,
            prior: prior as u32,
            real: real[prior],
            imaginary: imaginary[prior],
        }
    } else {
        b
    }
}

// The first cheapest of the priors q, q + 16, q + 32, q + 48.
fn first_cheapest(
    sums: &[f32; STATES],
    real: &[f32; STATES],
    imaginary: &[f32; STATES],
    q: usize,
) -> Branch
    requires { q < 16 }
    ensures { result ≡ first_cheapest_of sums.now real.now imaginary.now q }
{
    let none = Branch {
        cost: 1.0 / 0.0,
        prior: 0,
        real: 0.0,
        imaginary: 0.0,
    };
    let a = cheaper(none, sums, real, imaginary, q);
    let b = cheaper(a, sums, real, imaginary, q + 16);
    let c = cheaper(b, sums, real, imaginary, q + 32);
    cheaper(c, sums, real, imaginary, q + 48)
}

// The first cheapest branch for each q below 16, laid at from + q of the four planes.
pub fn choose(
    sums: &[f32; STATES],
    real: &[f32; STATES],
    imaginary: &[f32; STATES],
    from: usize,
    cost: &mut [f32; STATES],
    prior: &mut [u32; STATES],
    chosen_real: &mut [f32; STATES],
    chosen_imaginary: &mut [f32; STATES],
)
    requires { from + 16 ≤ 64 }
    ensures { Lays cost prior chosen_real chosen_imaginary from
        (first_cheapest_of sums.now real.now imaginary.now) }
{
    for q in 0..16 {
        let b = first_cheapest(sums, real, imaginary, q);
        cost[from + q] = b.cost;
        prior[from + q] = b.prior;
        chosen_real[from + q] = b.real;
        chosen_imaginary[from + q] = b.imaginary;
    }
}

// From the order 16 x symbol + q to that of the states, symbol + 4 x q.
pub fn interleave(x: &[f32; STATES], out: &mut [f32])
    requires { length out.old ≡ 64 }
    ensures { out.new ≡ upto (λ s. get_or x.now (16 * (s % 4) + s / 4) nan) 64 }
{
    for q in 0..16 {
        out[4 * q] = x[q];
        out[4 * q + 1] = x[16 + q];
        out[4 * q + 2] = x[32 + q];
        out[4 * q + 3] = x[48 + q];
    }
}

// The same for priors: each is below 64 and fits a byte.
pub fn interleave_priors(x: &[u32; STATES], out: &mut [u8; STATES])
    requires { Parents x.now }
    ensures { out.new ≡ upto (λ s. get_or x.now (16 * (s % 4) + s / 4) 0) 64 }
{
    for q in 0..16 {
        out[4 * q] = x[q] as u8;
        out[4 * q + 1] = x[16 + q] as u8;
        out[4 * q + 2] = x[32 + q] as u8;
        out[4 * q + 3] = x[48 + q] as u8;
    }
}
