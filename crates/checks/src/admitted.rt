// The admitted states: whether a state, be it from a setup or handed in, may be run. Each place's test is
// its own crate's; here are the totals, and the conjunction of all.
ghost use Rattle.std.specs.Prelude.{◌≡◌};
ghost use Rattle.checks.specs.Admitted.{totals_fit, chain_fits, state_fits};

use answers::PARENTS;
use chain::ChainPlace;
use front::FrontPlace;
use second::Second;
use sequence::admitted::are_states;

// 2 to the power 52: so many samples are taken at most.
pub const LIMIT: u64 = 4503599627370496;

// At most 2^52 samples were taken, the resampler's input index is at most that, and of at most two dibits
// a sample some or all were delivered under lock.
fn totals_fit(total: u64, index: u64, symbols: u64, locked: u64) -> bool
    ensures { result ≡ totals_fit total index symbols locked }
{
    if total > LIMIT {
        return false;
    }
    (index <= total) & ((locked <= symbols) & (symbols <= 2 * total))
}

// The places of peak keeper, clock, carrier with detector, and view may be run.
fn chain_fits(c: ChainPlace) -> bool
    ensures { result ≡ chain_fits c }
{
    let keeper = c.keeper;
    let place = c.clock;
    let carrier = c.carrier;
    let view = c.view;
    peak::is_admitted(keeper)
        & (clock::is_admitted(place) & (carrier::is_admitted(carrier) & signal::is_admitted(view)))
}

// Whether a state may be run, by what is looked at: its total, its places and its stored parents, and where
// the second tracker is enabled the same of it.
pub fn is_admitted(
    total: u64,
    front: FrontPlace,
    chain: ChainPlace,
    second: Second,
    parents: &[u8; PARENTS],
    ancestors: &[u8; PARENTS],
) -> bool
    ensures { result ≡ state_fits total front chain second parents.now ancestors.now }
{
    let r = front.resampler;
    let a = totals_fit(total, r.index, chain.symbols, chain.locked);
    let b = front::is_admitted(front);
    let c = chain_fits(chain);
    let d = are_states(parents);
    let e = second::is_admitted(second, ancestors);
    a & (b & (c & (d & e)))
}
