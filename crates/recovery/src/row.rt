// A row of values, one by one, each symbol put after those that stand there.
ghost use Rattle.std.specs.Prelude.{◌≡◌, ◌≤◌};
ghost use Rattle.peak.specs.Peak.{envelopes_of};
ghost use Rattle.recovery.specs.Rows.{put_of, linked_of, row_of};
ghost use Rattle.recovery.specs.Ranges.{Roomy, Asks};
ghost use Rattle.recovery.specs.Lends.{GivenSymbols, LeavesSymbols, GivenRow, LeavesRow};

use super::step::{Found, step};
use super::{ROW, Recovered};
use complex::Complex32;
use equalizer::WEIGHTS;
use filter::{RING, TAPS};
use peak::VALUES;

// A symbol and whether it is reliable, after those that stand in the row.
fn put(
    found: Option<Found>,
    count: usize,
    symbol_real: &mut [f32; ROW],
    symbol_imaginary: &mut [f32; ROW],
    reliable: &mut [bool; ROW],
) -> usize
    requires { GivenSymbols count symbol_real symbol_imaginary reliable (Roomy 1) }
    ensures { LeavesSymbols count result symbol_real symbol_imaginary reliable (λ b a. a ≡ put_of b found) }
{
    let Some(found) = found else {
        return count;
    };
    symbol_real[count] = found.symbol.real;
    symbol_imaginary[count] = found.symbol.imaginary;
    reliable[count] = found.reliable;
    count + 1
}

// One value, and its symbol, where there is one, put into the row.
fn link<'a>(
    t: Recovered,
    value: Complex32,
    taps: &'a [f32; TAPS],
    derivatives: &'a [f32; TAPS],
    sizes: &mut [f32; VALUES],
    keeper_real: &mut [f32; VALUES],
    keeper_imaginary: &mut [f32; VALUES],
    clock_real: &mut [f32; RING],
    clock_imaginary: &mut [f32; RING],
    weight_real: &mut [f32; WEIGHTS],
    weight_imaginary: &mut [f32; WEIGHTS],
    symbol_real: &mut [f32; ROW],
    symbol_imaginary: &mut [f32; ROW],
    reliable: &mut [bool; ROW],
) -> Recovered
    requires given_row { GivenRow t keeper_real keeper_imaginary clock_real clock_imaginary
        weight_real weight_imaginary symbol_real symbol_imaginary reliable (Asks 1) }
    requires sizes_value { sizes.old ≡ envelopes_of keeper_real.old keeper_imaginary.old }
    ensures { LeavesRow t result keeper_real keeper_imaginary clock_real clock_imaginary
        weight_real weight_imaginary symbol_real symbol_imaginary reliable
        (λ b a. (a ≡ linked_of taps.now derivatives.now b value)
        × (sizes.new ≡ envelopes_of a.state.keeper.real a.state.keeper.imaginary)) }
{
    let s = step(
        t.place,
        value,
        taps,
        derivatives,
        sizes,
        keeper_real,
        keeper_imaginary,
        clock_real,
        clock_imaginary,
        weight_real,
        weight_imaginary,
    );
    Recovered {
        place: s.place,
        count: put(s.found, t.count, symbol_real, symbol_imaginary, reliable),
    }
}

// The first `made` values of a row. The plane of sizes holds the envelopes of the keeper's values.
pub fn row<'a>(
    first: Recovered,
    row_real: &[f32; ROW],
    row_imaginary: &[f32; ROW],
    made: usize,
    taps: &'a [f32; TAPS],
    derivatives: &'a [f32; TAPS],
    sizes: &mut [f32; VALUES],
    keeper_real: &mut [f32; VALUES],
    keeper_imaginary: &mut [f32; VALUES],
    clock_real: &mut [f32; RING],
    clock_imaginary: &mut [f32; RING],
    weight_real: &mut [f32; WEIGHTS],
    weight_imaginary: &mut [f32; WEIGHTS],
    symbol_real: &mut [f32; ROW],
    symbol_imaginary: &mut [f32; ROW],
    reliable: &mut [bool; ROW],
) -> Recovered
    requires given_row { GivenRow first keeper_real keeper_imaginary clock_real clock_imaginary
        weight_real weight_imaginary symbol_real symbol_imaginary reliable (Asks made) }
    requires sizes_value { sizes.old ≡ envelopes_of keeper_real.old keeper_imaginary.old }
    ensures { LeavesRow first result keeper_real keeper_imaginary clock_real clock_imaginary
        weight_real weight_imaginary symbol_real symbol_imaginary reliable
        (λ b a. (a ≡ row_of taps.now derivatives.now row_real.now row_imaginary.now made b)
        × Asks 0 a) }
{
    let mut t = first;
    for i in 0..made {
        let value = Complex32 {
            real: row_real[i],
            imaginary: row_imaginary[i],
        };
        t = link(
            t,
            value,
            taps,
            derivatives,
            sizes,
            keeper_real,
            keeper_imaginary,
            clock_real,
            clock_imaginary,
            weight_real,
            weight_imaginary,
            symbol_real,
            symbol_imaginary,
            reliable,
        );
    }
    t
}
