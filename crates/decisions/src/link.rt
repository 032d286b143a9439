// One symbol of a row, and what it answers put into the row of answers.
ghost use Rattle.std.specs.Prelude.{◌≡◌, ◌<◌};
ghost use Rattle.decisions.specs.Rows.{linked_of};
ghost use Rattle.decisions.specs.Ranges.{Asks};
ghost use Rattle.decisions.specs.Lends.{GivenRow, LeavesRow};

use super::Decided;
use super::step::step;
use answer_row::{BYTES, FLAGS, put};
use answers::PARENTS;
use answers::soft::oldest;
use channels::{CHANNELS, STATES};
use complex::Complex32;
use signal::POINTS;

// One symbol: the oldest soft record goes into the step, and the symbol's takes its place.
pub fn link(
    t: Decided,
    at: usize,
    symbol: Complex32,
    reliable: bool,
    channel_real: &mut [f32; CHANNELS],
    channel_imaginary: &mut [f32; CHANNELS],
    costs: &mut [f32; STATES],
    parents: &mut [u8; PARENTS],
    view_real: &mut [f32; POINTS],
    view_imaginary: &mut [f32; POINTS],
    flags: &mut [bool; FLAGS],
    bytes: &mut [u8; BYTES],
) -> Decided
    requires given_row { GivenRow t channel_real channel_imaginary costs parents view_real view_imaginary flags bytes Asks }
    requires at_bound { at < 256 }
    ensures { LeavesRow t result channel_real channel_imaginary costs parents view_real view_imaginary flags bytes
        (λ b a. a ≡ linked_of b at symbol reliable) }
{
    let mut records = t.records;
    let slot = t.place.carrier.detector.write;
    let last = oldest(records, slot);
    let s = step(
        t.place,
        symbol,
        reliable,
        last,
        channel_real,
        channel_imaginary,
        costs,
        parents,
        view_real,
        view_imaginary,
    );
    records.slots[slot] = s.soft;
    put(at, s.answer, s.place.carrier.turn.locked, flags, bytes);
    Decided {
        place: s.place,
        records,
    }
}
