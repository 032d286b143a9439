// The second stream's state for the replay programs: made from six words, and digested whole. Test
// machinery: it is proved safe and ending, and that what it makes may be run.
#![tactic(auto)]

ghost use Rattle.std.specs.Prelude.{◌≡◌, ◌≤◌, length};
ghost use Rattle.second.specs.Second.{second_of};
ghost use Rattle.second.specs.Ranges.{Ranged};

use answers::PARENTS;
use carrier::{CarrierPlace, Loop};
use numbers::bits::float;
use replay::{fill, mixed, mixed_bytes, mixed_flag, mixed_float, mixed_plane};
use replay_detector::{
    Start, fill_parents, made_place, made_records, mixed_place, mixed_records, started,
};
use second::{MEMORY, Second};

// A seed; a detector's start; enabled, alternation and locked, a byte each; the carrier's phase, frequency
// and error.
#[derive(Clone, Copy)]
pub struct Making {
    pub seed: u64,
    pub start: u64,
    pub flags: u64,
    pub phase: u64,
    pub frequency: u64,
    pub error: u64,
}

fn turned(m: Making) -> Loop
    ensures { result.alternation ≤ 7 }
{
    Loop {
        phase: float(m.phase),
        frequency: float(m.frequency),
        alternation: (m.flags / 256 % 8) as u32,
        locked: m.flags / 65536 % 256 == 1,
        error: float(m.error),
    }
}

// The memory filled from the seed, in its order: channels and drifts, inverses, costs; and the seed after
// them.
fn fill_memory(seed: u64, start: Start, memory: &mut [f32]) -> u64
    requires { length memory.old ≡ 9280 }
    ensures { length memory.new ≡ 9280 }
{
    let s1 = fill(seed, start.floats, &mut memory[0..1024]);
    let s2 = fill(s1, start.inverses, &mut memory[1024..9216]);
    fill(s2, start.costs, &mut memory[9216..9280])
}

// A fresh second stream filled from the seed: its memory, then parents, records, combined observation and
// noise.
pub fn made_second(m: Making, memory: &mut [f32; MEMORY], ancestors: &mut [u8; PARENTS]) -> Second
    ensures ranged { Ranged (second_of result memory.new ancestors.new) }
    ensures whole { length ancestors.new ≡ 2048 }
{
    let start = started(m.start);
    let kind = start.floats;
    *memory = second::fresh_memory();
    let s1 = fill_memory(m.seed, start, &mut *memory);
    let s2 = fill_parents(s1, kind, &mut *ancestors);
    let records = made_records(s2, kind);
    let detector = made_place(start, records.seed);
    Second {
        enabled: m.flags % 256 == 1,
        carrier: CarrierPlace {
            turn: turned(m),
            detector: detector.value,
        },
        records: records.value,
    }
}

pub fn mixed_loop(h: u64, l: Loop) -> u64 {
    let turn = mixed_float(mixed_float(h, l.phase), l.frequency);
    mixed_float(
        mixed_flag(mixed(turn, u64::from(l.alternation)), l.locked),
        l.error,
    )
}

// The digest with the whole state of a second stream.
pub fn mixed_second(h: u64, s: Second, memory: &[f32; MEMORY], ancestors: &[u8; PARENTS]) -> u64 {
    let turn = mixed_loop(mixed_flag(h, s.enabled), s.carrier.turn);
    let place = mixed_place(turn, s.carrier.detector);
    mixed_records(
        mixed_bytes(mixed_plane(place, memory), ancestors),
        s.records,
    )
}
