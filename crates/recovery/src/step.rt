// One resampled value to a symbol, or none.
ghost use Rattle.std.specs.Prelude.{◌≡◌};
ghost use Rattle.peak.specs.Peak.{envelopes_of};
ghost use Rattle.recovery.specs.Recovery.{Step, stepped_of};
ghost use Rattle.recovery.specs.Ranges.{Ranged};
ghost use Rattle.recovery.specs.Lends.{Given, Leaves};

use super::RecoveryPlace;
use clock::update;
use complex::Complex32;
use equalizer::{WEIGHTS, equalize};
use filter::{RING, TAPS, WINDOWS};
use peak::{VALUES, keep};

// A symbol, and whether it is reliable.
#[derive(Clone, Copy)]
pub struct Found {
    pub symbol: Complex32,
    pub reliable: bool,
}

// The places after a value, and its symbol, where there is one.
#[derive(Clone, Copy)]
pub struct Stepped {
    pub place: RecoveryPlace,
    pub found: Option<Found>,
}

// One value. While the keeper fills, and where the clock has no symbol, the step ends there. The plane
// of sizes holds the envelopes of the keeper's values, before and after.
pub fn step<'a>(
    p: RecoveryPlace,
    value: Complex32,
    taps: &'a [f32; TAPS],
    derivatives: &'a [f32; TAPS],
    sizes: &mut [f32; VALUES],
    keeper_real: &mut [f32; VALUES],
    keeper_imaginary: &mut [f32; VALUES],
    clock_real: &mut [f32; RING],
    clock_imaginary: &mut [f32; RING],
    weight_real: &mut [f32; WEIGHTS],
    weight_imaginary: &mut [f32; WEIGHTS],
) -> Stepped
    requires given { Given p keeper_real keeper_imaginary clock_real clock_imaginary weight_real weight_imaginary Ranged }
    requires sizes_value { sizes.old ≡ envelopes_of keeper_real.old keeper_imaginary.old }
    ensures { Leaves p result.place keeper_real keeper_imaginary clock_real clock_imaginary weight_real weight_imaginary
        (λ b a. (◌≡◌ {A = Step} (record { state = a; found = result.found }) (stepped_of taps.now derivatives.now b value))
        × (sizes.new ≡ envelopes_of a.keeper.real a.keeper.imaginary)) }
{
    let k = keep(p.keeper, value, keeper_real, keeper_imaginary, sizes);
    let Some(level) = k.level else {
        let place = RecoveryPlace {
            keeper: k.place,
            clock: p.clock,
        };
        return Stepped { place, found: None };
    };
    let mut value_real = [0.0; WINDOWS];
    let mut value_imaginary = [0.0; WINDOWS];
    let mut derivative_real = [0.0; WINDOWS];
    let mut derivative_imaginary = [0.0; WINDOWS];
    let ticked = clock::step(
        p.clock,
        level.value,
        taps,
        derivatives,
        clock_real,
        clock_imaginary,
        &mut value_real,
        &mut value_imaginary,
        &mut derivative_real,
        &mut derivative_imaginary,
    );
    let Some(_) = ticked.due else {
        let place = RecoveryPlace {
            keeper: k.place,
            clock: ticked.place,
        };
        return Stepped { place, found: None };
    };
    let e = equalize(
        weight_real,
        weight_imaginary,
        &value_real,
        &value_imaginary,
        &derivative_real,
        &derivative_imaginary,
        level.reliable,
    );
    let turned = update(ticked.place, e.timing);
    let place = RecoveryPlace {
        keeper: k.place,
        clock: turned,
    };
    let found = Found {
        symbol: e.value,
        reliable: level.reliable,
    };
    Stepped {
        place,
        found: Some(found),
    }
}
