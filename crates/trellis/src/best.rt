// The first cheapest state, and its cost taken off all.
ghost use Rattle.std.specs.Prelude.{◌≡◌, ◌+◌, ◌<◌, get_or};
ghost use Rattle.std.specs.Float.Ieee as Ieee;
ghost use Rattle.laws.specs.Places.{upto};
ghost use Rattle.trellis.specs.Trellis.{best_of};
ghost use Rattle.trellis.specs.Layout.{nearer_of, Plain};

use channels::STATES;

// A state and what it costs.
#[derive(Clone, Copy)]
pub struct Least {
    pub state: usize,
    pub cost: f32,
}

// A further state, where it is cheaper.
fn nearer(b: Least, cost: f32, state: usize) -> Least
    ensures { result ≡ nearer_of b cost state }
{
    if cost < b.cost {
        Least { state, cost }
    } else {
        b
    }
}

// The first cheapest state, from four quarters of the states side by side. No cost is a NaN or -0.
pub fn cheapest(costs: &[f32; STATES]) -> Least
    requires { Plain costs.now }
    ensures { result ≡ best_of costs.now }
{
    let mut a = Least {
        state: 0,
        cost: costs[0],
    };
    let mut b = Least {
        state: 16,
        cost: costs[16],
    };
    let mut c = Least {
        state: 32,
        cost: costs[32],
    };
    let mut d = Least {
        state: 48,
        cost: costs[48],
    };
    for k in 0..15 {
        a = nearer(a, costs[k + 1], k + 1);
        b = nearer(b, costs[k + 17], k + 17);
        c = nearer(c, costs[k + 33], k + 33);
        d = nearer(d, costs[k + 49], k + 49);
    }
    let ab = nearer(a, b.cost, b.state);
    let abc = nearer(ab, c.cost, c.state);
    nearer(abc, d.cost, d.state)
}

// Takes one cost off the costs of all states.
pub fn take_off(costs: &mut [f32; STATES], least: f32)
    ensures { costs.new ≡ upto (λ s. Ieee.sub Ieee.binary32 (get_or costs.old s Ieee.nan) least) 64 }
{
    for cost in costs.iter_mut() {
        *cost -= least;
    }
}
