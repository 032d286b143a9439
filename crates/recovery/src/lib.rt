// Recovery: a row of resampled values to a row of equalized symbols, each with whether it is reliable,
// through peak keeper, clock and equalizer. Rings and weights are planes that the caller lends.
#![tactic(auto)]

ghost use Rattle.std.specs.Prelude.{◌≡◌};
ghost use Rattle.recovery.specs.Recovery.{admitted_of};
ghost use Rattle.recovery.specs.Rows.{recovered_of};
ghost use Rattle.recovery.specs.Ranges.{Asks};
ghost use Rattle.recovery.specs.Lends.{GivenRow, LeavesRow};

mod row;
pub mod step;

use clock::ClockPlace;
use equalizer::WEIGHTS;
use filter::RING;
use peak::{KeeperPlace, VALUES};
use row::row;
use taps::both_tables;

// The places of a row: as many values at most, and symbols.
pub const ROW: usize = 256;

// The places of peak keeper and clock.
#[derive(Clone, Copy)]
pub struct RecoveryPlace {
    pub keeper: KeeperPlace,
    pub clock: ClockPlace,
}

// The places, and how many symbols stand in the row.
#[derive(Clone, Copy)]
pub struct Recovered {
    pub place: RecoveryPlace,
    pub count: usize,
}

// Whether the places may be run, be they fresh or handed in.
pub fn is_admitted(p: RecoveryPlace) -> bool
    ensures { result ≡ admitted_of p }
{
    peak::is_admitted(p.keeper) & clock::is_admitted(p.clock)
}

// Takes the first `made` values of a row. Their symbols, and whether each is reliable, stand from the
// first place of the symbols' row on.
pub fn recover(
    place: RecoveryPlace,
    row_real: &[f32; ROW],
    row_imaginary: &[f32; ROW],
    made: usize,
    keeper_real: &mut [f32; VALUES],
    keeper_imaginary: &mut [f32; VALUES],
    clock_real: &mut [f32; RING],
    clock_imaginary: &mut [f32; RING],
    weight_real: &mut [f32; WEIGHTS],
    weight_imaginary: &mut [f32; WEIGHTS],
    symbol_real: &mut [f32; ROW],
    symbol_imaginary: &mut [f32; ROW],
    reliable: &mut [bool; ROW],
) -> Recovered
    requires { GivenRow (record { place = place; count = 0 }) keeper_real keeper_imaginary clock_real clock_imaginary
        weight_real weight_imaginary symbol_real symbol_imaginary reliable (Asks made) }
    ensures { LeavesRow (record { place = place; count = 0 }) result keeper_real keeper_imaginary clock_real clock_imaginary
        weight_real weight_imaginary symbol_real symbol_imaginary reliable
        (λ b a. (a ≡ recovered_of row_real.now row_imaginary.now made b) × Asks 0 a) }
{
    let tables = both_tables();
    let mut sizes = [0.0; VALUES];
    peak::envelopes(keeper_real, keeper_imaginary, &mut sizes);
    let first = Recovered { place, count: 0 };
    row(
        first,
        row_real,
        row_imaginary,
        made,
        &tables.taps,
        &tables.derivatives,
        &mut sizes,
        keeper_real,
        keeper_imaginary,
        clock_real,
        clock_imaginary,
        weight_real,
        weight_imaginary,
        symbol_real,
        symbol_imaginary,
        reliable,
    )
}
