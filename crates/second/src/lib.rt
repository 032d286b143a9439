// The second stream's decisions: a row of equalized symbols, each with whether it is reliable, to a row
// of answers, through a carrier of its own around the detector with the second tracker. What the tracker
// knows of the channel and the detector's costs lie in one array, which the caller lends with the parents;
// the soft records go by value.
#![tactic(auto)]

ghost use Rattle.std.specs.Prelude.{◌≡◌, ◌≤◌, length};
ghost use Rattle.second.specs.Second.{fresh_second, fresh_floats};
ghost use Rattle.second.specs.Rows.{row_of};
ghost use Rattle.second.specs.Admitted.{admitted_of};
ghost use Rattle.second.specs.Ranges.{Asks};
ghost use Rattle.second.specs.Lends.{Given, Leaves};

mod link;
mod parts;
mod prior;
mod row;

use answer_row::{BYTES, FLAGS};
use answers::PARENTS;
use answers::soft::Records;
use carrier::CarrierPlace;
use channels::{CHANNELS, STATES};
use drift_tracker::DRIFTS;
use least_squares::ALL;
use parts::{put_back, put_in, take_out};
use prior::inverses;
use row::run;
use sequence::admitted::are_states;

// The second stream's floats in one array: channels (real 256, imaginary 256), drifts 512, inverses 8192,
// costs 64.
pub const MEMORY: usize = 9280;

// A row holds at most so many symbols.
pub const SYMBOLS: usize = 256;

// Whether there is a second stream, its carrier's place, and its soft records. While it is not enabled,
// neither carrier nor records is looked at.
#[derive(Clone, Copy)]
pub struct Second {
    pub enabled: bool,
    pub carrier: CarrierPlace,
    pub records: Records,
}

// Enabled, with a carrier and a detector that have heard nothing. Its parents are 0, and `fresh_memory`
// gives its floats.
pub fn fresh() -> Second
    ensures { result ≡ fresh_second }
{
    Second {
        enabled: true,
        carrier: carrier::fresh(),
        records: sequence::step::fresh_records(),
    }
}

// The floats of a fresh one: channels as the first tracker's, no drift, inverses of an unknown channel,
// and costs of 0.
pub fn fresh_memory() -> [f32; MEMORY]
    ensures { result ≡ fresh_floats }
{
    let real = sequence::step::fresh_channels();
    let imaginary = [0.0; CHANNELS];
    let drift = [0.0; DRIFTS];
    let inverse = inverses();
    let costs = [0.0; STATES];
    let mut memory = [0.0; MEMORY];
    put_in(&mut memory, &real, &imaginary, &drift, &inverse, &costs);
    memory
}

// While it is not enabled nothing of it is looked at; then its carrier's place may be run, and every
// stored parent is a state.
pub fn is_admitted(s: Second, parents: &[u8; PARENTS]) -> bool
    ensures { result ≡ admitted_of s parents.now }
{
    if s.enabled {
        carrier::is_admitted(s.carrier) & are_states(parents)
    } else {
        true
    }
}

// Takes the first `count` symbols of a row. The answer to each stands at its place in the row of answers.
pub fn decide(
    first: Second,
    symbol_real: &[f32; SYMBOLS],
    symbol_imaginary: &[f32; SYMBOLS],
    reliable: &[bool; SYMBOLS],
    count: usize,
    memory: &mut [f32],
    parents: &mut [u8; PARENTS],
    flags: &mut [bool; FLAGS],
    bytes: &mut [u8; BYTES],
) -> Second
    requires given { Given first memory parents flags bytes Asks }
    requires count_bound { count ≤ 256 }
    ensures leaves { Leaves first result memory parents flags bytes
        (λ b a. (a ≡ row_of symbol_real.now symbol_imaginary.now «reliable».now count b) × Asks a) }
    ensures whole { length memory.new ≡ length memory.old }
{
    let mut real = [0.0; CHANNELS];
    let mut imaginary = [0.0; CHANNELS];
    let mut drift = [0.0; DRIFTS];
    let mut even = [0.0; ALL];
    let mut odd = [0.0; ALL];
    let mut costs = [0.0; STATES];
    take_out(
        memory,
        &mut real,
        &mut imaginary,
        &mut drift,
        &mut even,
        &mut costs,
    );
    let second = run(
        first,
        symbol_real,
        symbol_imaginary,
        reliable,
        count,
        &mut real,
        &mut imaginary,
        &mut drift,
        &mut even,
        &mut odd,
        &mut costs,
        parents,
        flags,
        bytes,
    );
    put_back(
        memory, count, &real, &imaginary, &drift, &even, &odd, &costs,
    );
    second
}
