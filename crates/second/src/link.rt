// One symbol of a row, and what it answers put into the row of answers.
ghost use Rattle.std.specs.Prelude.{◌≡◌, ◌+◌, ◌<◌, length};
ghost use Rattle.second.specs.Rows.{linked_of};
ghost use Rattle.second.specs.Ranges.{Asks};
ghost use Rattle.second.specs.Lends.{GivenLink, LeavesLink, LeavesTurns};

use super::Second;
use answer_row::{BYTES, FLAGS, put};
use answers::PARENTS;
use answers::soft::oldest;
use channels::{CHANNELS, STATES};
use complex::Complex32;
use drift_tracker::DRIFTS;
use least_squares::ALL;

// One symbol: the oldest soft record goes into the step, and the symbol's takes its place. The inverses
// after it are left in `next`.
fn link(
    t: Second,
    at: usize,
    symbol: Complex32,
    reliable: bool,
    real: &mut [f32; CHANNELS],
    imaginary: &mut [f32; CHANNELS],
    drift: &mut [f32; DRIFTS],
    inverse: &[f32; ALL],
    next: &mut [f32; ALL],
    costs: &mut [f32; STATES],
    parents: &mut [u8; PARENTS],
    flags: &mut [bool; FLAGS],
    bytes: &mut [u8; BYTES],
) -> Second
    requires given_link { GivenLink t real imaginary drift next costs parents flags bytes Asks }
    requires at_bound { at < 256 }
    ensures { LeavesLink t result real imaginary drift inverse next costs parents flags bytes
        (λ b a. (a ≡ linked_of b at symbol reliable) × Asks a) }
{
    let mut records = t.records;
    let slot = t.carrier.detector.write;
    let last = oldest(records, slot);
    let c = drift_carrier::step(
        t.carrier, symbol, reliable, last, real, imaginary, drift, inverse, next, costs, parents,
    );
    records.slots[slot] = c.soft;
    put(at, c.answer, c.place.turn.locked, flags, bytes);
    Second {
        enabled: t.enabled,
        carrier: c.place,
        records,
    }
}

// One symbol, whose inverses go from one array into the other by turns: those before a symbol of an even
// place stand in `even`, and those before one of an odd place in `odd`.
pub fn turned(
    t: Second,
    at: usize,
    symbol: Complex32,
    reliable: bool,
    real: &mut [f32; CHANNELS],
    imaginary: &mut [f32; CHANNELS],
    drift: &mut [f32; DRIFTS],
    even: &mut [f32; ALL],
    odd: &mut [f32; ALL],
    costs: &mut [f32; STATES],
    parents: &mut [u8; PARENTS],
    flags: &mut [bool; FLAGS],
    bytes: &mut [u8; BYTES],
) -> Second
    requires given_link { GivenLink t real imaginary drift even costs parents flags bytes Asks }
    requires odd_len { length odd.old ≡ 8192 }
    requires at_bound { at < 256 }
    ensures leaves_turns { LeavesTurns t result at (at + 1) real imaginary drift even odd costs parents flags bytes
        (λ b a. a ≡ linked_of b at symbol reliable) }
    ensures whole { (length even.new ≡ 8192) × (length odd.new ≡ 8192) }
{
    if at % 2 == 0 {
        link(
            t, at, symbol, reliable, real, imaginary, drift, even, odd, costs, parents, flags,
            bytes,
        )
    } else {
        link(
            t, at, symbol, reliable, real, imaginary, drift, odd, even, costs, parents, flags,
            bytes,
        )
    }
}
