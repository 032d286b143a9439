// Decisions: a row of equalized symbols, each with whether it is reliable, to a row of answers, through
// carrier with detector, and view. Channels, costs, parents and the view's points are planes that the
// caller lends; the soft records go by value.
#![tactic(auto)]

ghost use Rattle.std.specs.Prelude.{◌≡◌, ◌≤◌};
ghost use Rattle.decisions.specs.Rows.{row_of};
ghost use Rattle.decisions.specs.Ranges.{Asks};
ghost use Rattle.decisions.specs.Lends.{GivenRow, LeavesRow};

mod link;
pub mod step;

use answer_row::{BYTES, FLAGS};
use answers::PARENTS;
use answers::soft::Records;
use carrier::CarrierPlace;
use channels::{CHANNELS, STATES};
use complex::Complex32;
use link::link;
use signal::{POINTS, ViewPlace};

// A row holds at most so many symbols.
pub const SYMBOLS: usize = 256;

// The places of carrier and view.
#[derive(Clone, Copy)]
pub struct DecisionsPlace {
    pub carrier: CarrierPlace,
    pub view: ViewPlace,
}

// The places and the soft records.
#[derive(Clone, Copy)]
pub struct Decided {
    pub place: DecisionsPlace,
    pub records: Records,
}

// Takes the first `count` symbols of a row. The answer to each stands at its place in the row of answers.
pub fn decide(
    first: Decided,
    symbol_real: &[f32; SYMBOLS],
    symbol_imaginary: &[f32; SYMBOLS],
    reliable: &[bool; SYMBOLS],
    count: usize,
    channel_real: &mut [f32; CHANNELS],
    channel_imaginary: &mut [f32; CHANNELS],
    costs: &mut [f32; STATES],
    parents: &mut [u8; PARENTS],
    view_real: &mut [f32; POINTS],
    view_imaginary: &mut [f32; POINTS],
    flags: &mut [bool; FLAGS],
    bytes: &mut [u8; BYTES],
) -> Decided
    requires given_row { GivenRow first channel_real channel_imaginary costs parents view_real view_imaginary flags bytes Asks }
    requires count_bound { count ≤ 256 }
    ensures { LeavesRow first result channel_real channel_imaginary costs parents view_real view_imaginary flags bytes
        (λ b a. (a ≡ row_of symbol_real.now symbol_imaginary.now «reliable».now count b) × Asks a) }
{
    let mut t = first;
    for i in 0..count {
        let symbol = Complex32 {
            real: symbol_real[i],
            imaginary: symbol_imaginary[i],
        };
        t = link(
            t,
            i,
            symbol,
            reliable[i],
            channel_real,
            channel_imaginary,
            costs,
            parents,
            view_real,
            view_imaginary,
            flags,
            bytes,
        );
    }
    t
}
