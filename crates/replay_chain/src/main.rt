// Runs the chain on each run of rows from standard input, from the run's own state, with a second stream
// or without, and writes a line for each row: the digest of its dibits and of the whole state after it, in
// the order of the list that the oracle prints.
#![tactic(auto)]

ghost use Rattle.std.specs.Prelude.{◌≡◌, cond, ◌+◌, ◌<◌, ◌≤◌, length};
ghost use Rattle.chain.specs.Ranges.{most_symbols, Ranged};
ghost use Rattle.replay_chain.specs.Sound.{Sound, state_now};

use answers::PARENTS;
use carrier::{CarrierPlace, Loop};
use chain::{ChainPlace, ChainPlanes, Chained, DecisionsPlanes, RecoveryPlanes};
use clock::ClockPlace;
use complex::Planes;
use numbers::bits::{float, float32};
use peak::KeeperPlace;
use replay::{
    fill, mixed, mixed_bytes, mixed_flag, mixed_float32, mixed_plane, print_line, record, word,
};
use replay_detector::{
    fill_parents, made_place, made_point, made_records, mixed_place, mixed_point, mixed_records,
    started,
};
use replay_second::{Making, made_second, mixed_loop, mixed_second};
use second::MEMORY;
use signal::ViewPlace;

// The state's own words, and how many rows follow.
const HEAD: usize = 104;

fn low(a: u64) -> u64 {
    a % 0x1_0000_0000
}

fn high(a: u64) -> u64 {
    a / 0x1_0000_0000
}

fn low_float(a: u64) -> f32 {
    float32((a % 0x1_0000_0000) as u32)
}

fn high_float(a: u64) -> f32 {
    float32((a / 0x1_0000_0000) as u32)
}

fn keeper(places: u64, reference: u64) -> KeeperPlace
    ensures { (result.head < 64) × (result.fill ≤ 64) }
{
    KeeperPlace {
        head: (places % 64) as usize,
        fill: (places / 256 % 256 % 65) as usize,
        reference: low_float(reference),
    }
}

fn clock_place(counts: u64, floats: u64) -> ClockPlace {
    ClockPlace {
        start: (counts % 65536) as usize,
        count: (counts / 65536 % 65536) as usize,
        position: (high(counts) % 65536) as usize,
        warm: high(counts) / 65536 == 1,
        phase: low_float(floats),
        rate: high_float(floats),
    }
}

fn carrier_loop(places: u64, phase: u64, frequency: u64, error: u64) -> Loop
    ensures { result.alternation ≤ 7 }
{
    Loop {
        phase: float(phase),
        frequency: float(frequency),
        alternation: (places / 65536 % 8) as u32,
        locked: places / 0x100_0000 % 256 == 1,
        error: float(error),
    }
}

// 1, or some other number.
fn profile(places: u64) -> i32 {
    if high(places) % 256 == 1 {
        1
    } else if high(places) % 256 == 255 {
        -1
    } else {
        0
    }
}

// A flag's byte.
fn is_set(a: u64) -> bool {
    a % 256 == 1
}

fn read_word() -> u64 {
    let mut encoded = [0u8; 8];
    io::read_full(0, &mut encoded);
    word(&encoded, 0)
}

// The second stream of a run, where it has one: six words from standard input.
fn read_making(has: bool) -> Making {
    if has {
        Making {
            seed: read_word(),
            start: read_word(),
            flags: read_word(),
            phase: read_word(),
            frequency: read_word(),
            error: read_word(),
        }
    } else {
        Making {
            seed: 0,
            start: 0,
            flags: 0,
            phase: 0,
            frequency: 0,
            error: 0,
        }
    }
}

// Values from standard input into the first places of a row.
fn read_row(made: usize, row: &mut Planes<256>)
    requires { made ≤ 256 }
{
    for i in 0..made {
        let value = read_word();
        row.real[i] = low_float(value);
        row.imaginary[i] = high_float(value);
    }
}

fn mixed_keeper(h: u64, k: KeeperPlace) -> u64 {
    mixed_float32(mixed(mixed(h, k.head as u64), k.fill as u64), k.reference)
}

fn mixed_clock(h: u64, c: ClockPlace) -> u64 {
    let counts = mixed(mixed(h, c.start as u64), c.count as u64);
    let place = mixed_flag(mixed(counts, c.position as u64), c.warm);
    mixed_float32(mixed_float32(place, c.phase), c.rate)
}

fn mixed_chain(h: u64, p: ChainPlace) -> u64 {
    let a = mixed_loop(
        mixed_clock(mixed_keeper(h, p.keeper), p.clock),
        p.carrier.turn,
    );
    let b = mixed(mixed(a, p.view.head as u64), p.view.count as u64);
    mixed_point(mixed(mixed(b, p.symbols), p.locked), p.view.previous)
}

fn mixed_planes<const N: usize>(h: u64, planes: &Planes<N>) -> u64 {
    mixed_plane(mixed_plane(h, &planes.real), &planes.imaginary)
}

// What a row's answers are written into: the first stream's, and the second's.
#[derive(Clone, Copy)]
struct Rooms {
    dibits: [u8; 264],
    reliabilities: [u8; 528],
    others: [u8; 264],
    other_reliabilities: [u8; 528],
}

// The digest with both streams' bytes, where the run has a second.
fn mixed_rooms(h: u64, has: bool, rooms: &Rooms) -> u64 {
    let first = mixed_bytes(mixed_bytes(h, &rooms.dibits), &rooms.reliabilities);
    if has {
        mixed_bytes(
            mixed_bytes(first, &rooms.others),
            &rooms.other_reliabilities,
        )
    } else {
        first
    }
}

// What a run holds between its rows, whether it has a second stream, and whether both are asked for.
#[derive(Clone, Copy)]
struct Held {
    chained: Chained,
    planes: ChainPlanes,
    memory: [f32; MEMORY],
    ancestors: [u8; PARENTS],
    has_second: bool,
    both: bool,
}

// The digest of a row's dibits and of the whole state after it.
fn tell(r: &Held, rooms: &Rooms) {
    let c = r.chained;
    let h1 = mixed_rooms(mixed(0, c.written as u64), r.has_second, rooms);
    let h2 = mixed_planes(mixed_chain(h1, c.place), &r.planes.recovery.keeper);
    let h3 = mixed_planes(h2, &r.planes.recovery.clock);
    let h4 = mixed_planes(h3, &r.planes.recovery.weights);
    let h5 = mixed_place(h4, c.place.carrier.detector);
    let h6 = mixed_planes(h5, &r.planes.decisions.channels);
    let h7 = mixed_records(
        mixed_bytes(
            mixed_plane(h6, &r.planes.decisions.costs),
            &r.planes.decisions.parents,
        ),
        c.records,
    );
    let h8 = mixed_planes(h7, &r.planes.decisions.view);
    if r.has_second {
        print_line(mixed_second(h8, c.second, &r.memory, &r.ancestors), 16);
    } else {
        print_line(h8, 16);
    }
}

// The second stream's room is lent only where both streams are asked for.
fn room(both: bool) -> usize
    ensures value { result ≡ cond both 264 0 }
    ensures most { result ≤ 264 }
{
    if both { 264 } else { 0 }
}

// One row.
fn row(r: &mut Held, row: &Planes<256>, made: usize, before: usize)
    requires ranged { Ranged (state_now r.old) }
    requires symbols_bound { r.old.chained.place.symbols + 256 ≤ most_symbols }
    requires made_bound { made ≤ 256 }
    requires before_bound { before ≤ 8 }
    ensures { Ranged (state_now r.new) }
{
    let mut rooms = Rooms {
        dibits: [170; 264],
        reliabilities: [170; 528],
        others: [170; 264],
        other_reliabilities: [170; 528],
    };
    let room = room(r.both);
    let pairs = 2 * room;
    r.chained = chain::chain(
        Chained {
            written: before,
            ..r.chained
        },
        row,
        made,
        &mut r.planes,
        &mut r.memory,
        &mut r.ancestors,
        &mut rooms.dibits,
        &mut rooms.reliabilities,
        &mut rooms.others[..room],
        &mut rooms.other_reliabilities[..pairs],
        r.both,
    );
    tell(r, &rooms);
}

// Rows, as many as the run says.
fn run(r: &mut Held, rows: u64)
    requires { Ranged (state_now r.old) }
{
    let mut values = Planes {
        real: [0.0; 256],
        imaginary: [0.0; 256],
    };
    for _ in 0..rows {
        let head = read_word();
        let made = low(head).min(256) as usize;
        let before = high(head).min(8) as usize;
        read_row(made, &mut values);
        if r.chained.place.symbols > 9007199254740000 {
            break;
        }
        row(r, &values, made, before);
    }
}

#[derive(Clone, Copy)]
struct Request {
    seed: u64,
    start: u64,
    rows: u64,
    keeper: KeeperPlace,
    clock: ClockPlace,
    turn: Loop,
    head: usize,
    count: usize,
    profile: i32,
    symbols: u64,
    locked: u64,
    has_second: bool,
    both: bool,
}

fn decoded(head: &[u8]) -> Request
    requires { 104 ≤ length head.now }
    ensures { Sound result }
{
    let places = word(head, 16);
    let view = word(head, 40);
    let symbols = word(head, 56);
    Request {
        seed: word(head, 0),
        start: word(head, 8),
        rows: word(head, 96),
        keeper: keeper(places, word(head, 48)),
        clock: clock_place(word(head, 24), word(head, 32)),
        turn: carrier_loop(places, word(head, 72), word(head, 80), word(head, 88)),
        head: (view % 1024) as usize,
        count: (high(view) % 1025) as usize,
        profile: profile(places),
        symbols,
        locked: word(head, 64).min(symbols),
        has_second: is_set(high(places) / 256),
        both: is_set(high(places) / 65536),
    }
}

// Numbers of a kind all over the real parts and then the imaginary ones, and the seed after them.
fn fill_planes<const N: usize>(s: u64, kind: u64, planes: &mut Planes<N>) -> u64
    ensures real { length planes.new.real ≡ length planes.old.real }
    ensures imaginary { length planes.new.imaginary ≡ length planes.old.imaginary }
{
    let seed = fill(s, kind, &mut planes.real);
    fill(seed, kind, &mut planes.imaginary)
}

// The planes and the places of a run's state, and its rows.
fn answer(q: Request)
    requires { Sound q }
{
    let start = started(q.start);
    let kind = start.floats;
    let mut planes = ChainPlanes {
        recovery: RecoveryPlanes {
            keeper: Planes {
                real: [0.0; 64],
                imaginary: [0.0; 64],
            },
            clock: Planes {
                real: [0.0; 256],
                imaginary: [0.0; 256],
            },
            weights: Planes {
                real: equalizer::fresh_real(),
                imaginary: equalizer::fresh_imaginary(),
            },
        },
        decisions: DecisionsPlanes {
            channels: Planes {
                real: sequence::step::fresh_channels(),
                imaginary: [0.0; 256],
            },
            costs: [0.0; 64],
            parents: [0; PARENTS],
            view: Planes {
                real: [0.0; 1024],
                imaginary: [0.0; 1024],
            },
        },
    };
    let s1 = fill_planes(q.seed, kind, &mut planes.recovery.keeper);
    let s2 = fill_planes(s1, kind, &mut planes.recovery.clock);
    let s3 = fill_planes(s2, kind, &mut planes.recovery.weights);
    let s4 = fill_planes(s3, kind, &mut planes.decisions.channels);
    let s5 = fill(s4, start.costs, &mut planes.decisions.costs);
    let s6 = fill_parents(s5, kind, &mut planes.decisions.parents);
    let records = made_records(s6, kind);
    let made = made_place(start, records.seed);
    let previous = made_point(made.seed, kind);
    fill_planes(previous.seed, kind, &mut planes.decisions.view);
    let mut memory: [f32; MEMORY] = [0.0; MEMORY];
    let mut ancestors: [u8; PARENTS] = [0; PARENTS];
    let second = made_second(read_making(q.has_second), &mut memory, &mut ancestors);
    if !clock::is_admitted(q.clock) {
        io::write_all(1, b"not admitted\n");
        return;
    }
    let mut r = Held {
        chained: Chained {
            place: ChainPlace {
                keeper: q.keeper,
                clock: q.clock,
                carrier: CarrierPlace {
                    turn: q.turn,
                    detector: made.value,
                },
                view: ViewPlace {
                    previous: previous.value,
                    head: q.head,
                    count: q.count,
                },
                profile: q.profile,
                symbols: q.symbols,
                locked: q.locked,
            },
            records: records.value,
            second,
            written: 0,
        },
        planes,
        memory,
        ancestors,
        has_second: q.has_second,
        both: q.both,
    };
    run(&mut r, q.rows);
}

fn main() {
    for head in std::iter::from_fn(record::<HEAD>).take(1_000_000) {
        answer(decoded(&head));
    }
}
