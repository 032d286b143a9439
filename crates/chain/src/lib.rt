// The chain: a row of resampled values to dibits. Recovery (peak keeper, clock, equalizer) makes a row of
// symbols of it; the later stages are decisions (carrier with detector, view), the same by the second stream
// where it is enabled, and delivery (labels, counts), which writes what both answer where the caller says.
// Rings, weights, channels and the view's points are planes that the caller lends; the soft records go by
// value.
#![tactic(auto)]

ghost use Rattle.std.specs.Prelude.{◌≡◌, ◌≤◌};
ghost use Rattle.chain.specs.Chain.{fresh_place, delivery_of, joined_place};
ghost use Rattle.chain.specs.Rows.{values_of, chain_of};
ghost use Rattle.chain.specs.Lends.{Given, Leaves};
ghost use Rattle.chain.specs.Ranges.{Asks};
ghost use Rattle.chain.specs.RowLaws.{Left};

mod later;

use answers::PARENTS;
use answers::soft::Records;
use carrier::CarrierPlace;
use channels::{CHANNELS, STATES};
use clock::ClockPlace;
use complex::Planes;
use decisions::{Decided, DecisionsPlace};
use delivery::{Delivered, DeliveryPlace};
use equalizer::WEIGHTS;
use filter::RING;
use later::{LaterPlace, later};
use peak::{KeeperPlace, VALUES};
use recovery::{ROW, RecoveryPlace, recover};
use second::Second;
use signal::{POINTS, ViewPlace};

// The places of the chain's parts, the profile, the dibits delivered since setup, and those of them
// that were delivered under lock.
#[derive(Clone, Copy)]
pub struct ChainPlace {
    pub keeper: KeeperPlace,
    pub clock: ClockPlace,
    pub carrier: CarrierPlace,
    pub view: ViewPlace,
    pub profile: i32,
    pub symbols: u64,
    pub locked: u64,
}

// What recovery holds between rows beside its place: the peak keeper's ring, the clock's, and the equalizer's
// weights.
#[derive(Clone, Copy)]
pub struct RecoveryPlanes {
    pub keeper: Planes<VALUES>,
    pub clock: Planes<RING>,
    pub weights: Planes<WEIGHTS>,
}

// What decisions hold between rows beside their place and soft records: the detector's channels, costs and
// parents, and the view's ring.
#[derive(Clone, Copy)]
pub struct DecisionsPlanes {
    pub channels: Planes<CHANNELS>,
    pub costs: [f32; STATES],
    pub parents: [u8; PARENTS],
    pub view: Planes<POINTS>,
}

#[derive(Clone, Copy)]
pub struct ChainPlanes {
    pub recovery: RecoveryPlanes,
    pub decisions: DecisionsPlanes,
}

// The place, the soft records, the second stream, and how many dibits are written of each.
#[derive(Clone, Copy)]
pub struct Chained {
    pub place: ChainPlace,
    pub records: Records,
    pub second: Second,
    pub written: usize,
}

// A chain before its first value, for a profile.
pub fn fresh(profile: i32) -> ChainPlace
    ensures { result ≡ fresh_place profile }
{
    ChainPlace {
        keeper: peak::fresh(),
        clock: clock::fresh(),
        carrier: carrier::fresh(),
        view: signal::fresh(),
        profile,
        symbols: 0,
        locked: 0,
    }
}

// What the third stage has of a chain's place.
fn delivery_place(p: ChainPlace) -> DeliveryPlace
    ensures { result ≡ delivery_of p }
{
    DeliveryPlace {
        profile: p.profile,
        symbols: p.symbols,
        locked: p.locked,
    }
}

// The places of the three stages as a chain's.
fn joined(r: RecoveryPlace, d: DecisionsPlace, t: DeliveryPlace) -> ChainPlace
    ensures { result ≡ joined_place r d t }
{
    ChainPlace {
        keeper: r.keeper,
        clock: r.clock,
        carrier: d.carrier,
        view: d.view,
        profile: t.profile,
        symbols: t.symbols,
        locked: t.locked,
    }
}

// Takes the first `made` values of a row. Of the dibits, and in pairs of the reliabilities, `first.written`
// stand there already; those that the values give are written after them, and the rest is untouched. The
// second stream's go into rooms of their own where both are asked for. Where it is not enabled its memory
// is not looked at and may be empty.
// A row without values, of which high rates make many, ends the call at once, and one without symbols
// after recovery.
pub fn chain(
    first: Chained,
    row: &Planes<ROW>,
    made: usize,
    planes: &mut ChainPlanes,
    memory: &mut [f32],
    ancestors: &mut [u8; PARENTS],
    dibits: &mut [u8],
    reliabilities: &mut [u8],
    others: &mut [u8],
    other_reliabilities: &mut [u8],
    both: bool,
) -> Chained
    requires given { Given first planes memory ancestors dibits reliabilities others other_reliabilities (Asks both made) }
    requires made_bound { made ≤ 256 }
    ensures { Leaves first result planes memory ancestors dibits reliabilities others other_reliabilities
        (λ b a. (a ≡ chain_of (values_of row.now.real row.now.imaginary made) b.state b.records b.room b.other)
        × Left made b.state b.room b.other a) }
{
    if made == 0 {
        return first;
    }
    let place = first.place;
    let mut symbols = Planes {
        real: [0.0; ROW],
        imaginary: [0.0; ROW],
    };
    let mut reliable = [false; ROW];
    let r = recover(
        RecoveryPlace {
            keeper: place.keeper,
            clock: place.clock,
        },
        &row.real,
        &row.imaginary,
        made,
        &mut planes.recovery.keeper.real,
        &mut planes.recovery.keeper.imaginary,
        &mut planes.recovery.clock.real,
        &mut planes.recovery.clock.imaginary,
        &mut planes.recovery.weights.real,
        &mut planes.recovery.weights.imaginary,
        &mut symbols.real,
        &mut symbols.imaginary,
        &mut reliable,
    );
    let undecided = DecisionsPlace {
        carrier: place.carrier,
        view: place.view,
    };
    let undelivered = delivery_place(place);
    if r.count == 0 {
        return Chained {
            place: joined(r.place, undecided, undelivered),
            ..first
        };
    }
    let l = later(
        LaterPlace {
            decided: Decided {
                place: undecided,
                records: first.records,
            },
            second: first.second,
            delivered: Delivered {
                place: undelivered,
                written: first.written,
            },
        },
        &symbols,
        &reliable,
        r.count,
        &mut planes.decisions,
        memory,
        ancestors,
        dibits,
        reliabilities,
        others,
        other_reliabilities,
        both,
    );
    Chained {
        place: joined(r.place, l.decided.place, l.delivered.place),
        records: l.decided.records,
        second: l.second,
        written: l.delivered.written,
    }
}
