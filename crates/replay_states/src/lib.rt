// A receiver's state as a row of 18,262 words, in the oracle's order: a number a word, two's
// complement for signed ones, an option as 1 and its values or zeros, planes of reals before planes
// of imaginaries. The second stream's words are the last 11,505. Three words of each detector stay zero:
// an observation that the Rust keeps and never reads.
#![tactic(auto)]

ghost use Rattle.std.specs.Prelude.{◌+◌, ◌<◌};

use answers::PARENTS;
use answers::soft::{Records, Soft};
use carrier::{CarrierPlace, Loop};
use chain::ChainPlace;
use clock::ClockPlace;
use complex::{Complex32, Planes};
use decimator::{Decimator, Parts, Stages};
use front::FrontPlace;
use numbers::bits::{float, float32, pattern, pattern32};
use oscillator::Oscillator;
use peak::KeeperPlace;
use receiver_state::state::Receiver;
use resampler::pass::Resampler;
use second::{MEMORY, Second};
use sequence::step::DetectorPlace;
use signal::ViewPlace;

pub const WORDS: usize = 18262;

// ---- words to numbers

fn low(w: u64) -> u32 {
    (w % 0x1_0000_0000) as u32
}

fn float_at(words: &[u64; WORDS], at: usize) -> f64
    requires { at < 18262 }
{
    float(words[at])
}

fn float32_at(words: &[u64; WORDS], at: usize) -> f32
    requires { at < 18262 }
{
    float32(low(words[at]))
}

fn place_at(words: &[u64; WORDS], at: usize) -> usize
    requires { at < 18262 }
{
    words[at] as usize
}

fn flag_at(words: &[u64; WORDS], at: usize) -> bool
    requires { at < 18262 }
{
    words[at] == 1
}

// The profiles that scripts name: -1, 0, 1 and 2.
pub fn profile_of(w: u64) -> i32 {
    if w == 0xffff_ffff_ffff_ffff {
        -1
    } else if w == 1 {
        1
    } else if w == 2 {
        2
    } else {
        0
    }
}

fn observation_at(words: &[u64; WORDS], at: usize) -> Option<Complex32>
    requires { at + 2 < 18262 }
{
    if flag_at(words, at) {
        Some(Complex32 {
            real: float32_at(words, at + 1),
            imaginary: float32_at(words, at + 2),
        })
    } else {
        None
    }
}

fn previous_at(words: &[u64; WORDS], at: usize) -> Option<usize>
    requires { at + 1 < 18262 }
{
    if flag_at(words, at) {
        Some(place_at(words, at + 1))
    } else {
        None
    }
}

fn soft_at(words: &[u64; WORDS], at: usize) -> Option<Soft>
    requires { at + 4 < 18262 }
{
    if flag_at(words, at) {
        Some(Soft {
            high_sign: flag_at(words, at + 1),
            low_sign: flag_at(words, at + 2),
            high_reliability: float32_at(words, at + 3),
            low_reliability: float32_at(words, at + 4),
        })
    } else {
        None
    }
}

fn records_at(words: &[u64; WORDS], from: usize) -> Records
    requires { from + 159 < 18262 }
{
    let mut records = Records { slots: [None; 32] };
    for i in 0..32 {
        records.slots[i] = soft_at(words, from + 5 * i);
    }
    records
}

fn oscillator_at(words: &[u64; WORDS]) -> Oscillator {
    Oscillator {
        real: float_at(words, 2),
        imaginary: float_at(words, 3),
        step_real: float_at(words, 4),
        step_imaginary: float_at(words, 5),
        renormalize: place_at(words, 6),
    }
}

fn stages_at(words: &[u64; WORDS], at: usize) -> Stages
    requires { at + 2 < 18262 }
{
    Stages {
        first: words[at],
        second: words[at + 1],
        third: words[at + 2],
    }
}

fn parts_at(words: &[u64; WORDS], at: usize) -> Parts
    requires { at + 5 < 18262 }
{
    Parts {
        real: stages_at(words, at),
        imaginary: stages_at(words, at + 3),
    }
}

fn decimator_at(words: &[u64; WORDS]) -> Decimator {
    Decimator {
        decimation: place_at(words, 7),
        counter: place_at(words, 8),
        integrators: parts_at(words, 9),
        combs: parts_at(words, 15),
    }
}

fn resampler_at(words: &[u64; WORDS]) -> Resampler {
    Resampler {
        arm: place_at(words, 21),
        half: place_at(words, 22),
        step: float_at(words, 23),
        index: words[24],
        next: float_at(words, 25),
        write: place_at(words, 26),
    }
}

fn front_at(words: &[u64; WORDS]) -> FrontPlace {
    FrontPlace {
        oscillator: oscillator_at(words),
        decimator: decimator_at(words),
        resampler: resampler_at(words),
    }
}

fn clock_at(words: &[u64; WORDS]) -> ClockPlace {
    ClockPlace {
        start: place_at(words, 30),
        count: place_at(words, 31),
        position: place_at(words, 32),
        warm: flag_at(words, 33),
        phase: float32_at(words, 34),
        rate: float32_at(words, 35),
    }
}

fn carrier_at(words: &[u64; WORDS], at: usize) -> CarrierPlace
    requires { at + 15 < 18262 }
{
    CarrierPlace {
        turn: Loop {
            phase: float_at(words, at),
            frequency: float_at(words, at + 1),
            alternation: low(words[at + 2]),
            locked: flag_at(words, at + 3),
            error: float_at(words, at + 4),
        },
        detector: DetectorPlace {
            write: place_at(words, at + 5),
            filled: place_at(words, at + 6),
            previous: previous_at(words, at + 7),
            combined: observation_at(words, at + 9),
            noise: float32_at(words, at + 15),
        },
    }
}

fn chain_at(words: &[u64; WORDS]) -> ChainPlace {
    ChainPlace {
        keeper: KeeperPlace {
            head: place_at(words, 27),
            fill: place_at(words, 28),
            reference: float32_at(words, 29),
        },
        clock: clock_at(words),
        carrier: carrier_at(words, 36),
        view: ViewPlace {
            previous: observation_at(words, 52),
            head: place_at(words, 55),
            count: place_at(words, 56),
        },
        profile: profile_of(words[1]),
        symbols: words[57],
        locked: words[58],
    }
}

fn second_at(words: &[u64; WORDS]) -> Second {
    Second {
        enabled: flag_at(words, 6757),
        carrier: carrier_at(words, 6758),
        records: records_at(words, 6774),
    }
}

fn word_at(words: &[u64; WORDS], at: usize) -> u64 {
    if at < WORDS { words[at] } else { 0 }
}

// A plane from its words.
fn take_plane(words: &[u64; WORDS], from: usize, plane: &mut [f32])
    requires { from < 18262 }
{
    for i in 0..plane.len() {
        plane[i] = float32(low(word_at(words, from + i)));
    }
}

// The real parts from there on, and then the imaginary ones.
fn take_planes<const N: usize>(words: &[u64; WORDS], from: usize, planes: &mut Planes<N>)
    requires { from + N < 18262 }
{
    take_plane(words, from, &mut planes.real);
    take_plane(words, from + N, &mut planes.imaginary);
}

fn take_parents(words: &[u64; WORDS], from: usize, parents: &mut [u8; PARENTS])
    requires { from + 2047 < 18262 }
{
    for i in 0..PARENTS {
        parents[i] = (words[from + i] % 256) as u8;
    }
}

pub fn decoded(words: &[u64; WORDS]) -> Receiver {
    let mut r = receiver_state::state::zero();
    r.total = words[0];
    r.front = front_at(words);
    r.chain = chain_at(words);
    r.records = records_at(words, 4549);
    take_planes(words, 59, &mut r.ring);
    take_planes(words, 1243, &mut r.planes.recovery.keeper);
    take_planes(words, 1371, &mut r.planes.recovery.clock);
    take_planes(words, 1883, &mut r.planes.recovery.weights);
    take_planes(words, 1925, &mut r.planes.decisions.channels);
    take_plane(words, 2437, &mut r.planes.decisions.costs);
    take_parents(words, 2501, &mut r.planes.decisions.parents);
    take_planes(words, 4709, &mut r.planes.decisions.view);
    r.second = second_at(words);
    take_plane(words, 6934, &mut r.memory);
    take_parents(words, 16214, &mut r.ancestors);
    r
}

// ---- numbers to words

fn put_flag(words: &mut [u64; WORDS], at: usize, flag: bool)
    requires { at < 18262 }
{
    words[at] = u64::from(flag);
}

fn put_float(words: &mut [u64; WORDS], at: usize, x: f64)
    requires { at < 18262 }
{
    words[at] = pattern(x);
}

fn put_float32(words: &mut [u64; WORDS], at: usize, x: f32)
    requires { at < 18262 }
{
    words[at] = u64::from(pattern32(x));
}

fn profile_word(p: i32) -> u64 {
    if p == -1 {
        0xffff_ffff_ffff_ffff
    } else if p == 1 {
        1
    } else if p == 2 {
        2
    } else {
        0
    }
}

fn put_complex(words: &mut [u64; WORDS], at: usize, present: bool, value: Complex32)
    requires { at + 2 < 18262 }
{
    put_flag(words, at, present);
    put_float32(words, at + 1, value.real);
    put_float32(words, at + 2, value.imaginary);
}

fn put_observation(words: &mut [u64; WORDS], at: usize, o: Option<Complex32>)
    requires { at + 2 < 18262 }
{
    match o {
        None => put_complex(words, at, false, complex::zero()),
        Some(v) => put_complex(words, at, true, v),
    }
}

fn put_previous(words: &mut [u64; WORDS], at: usize, p: Option<usize>)
    requires { at + 1 < 18262 }
{
    match p {
        None => {
            words[at] = 0;
            words[at + 1] = 0;
        }
        Some(k) => {
            words[at] = 1;
            words[at + 1] = k as u64;
        }
    }
}

fn put_record(words: &mut [u64; WORDS], at: usize, high: bool, low: bool, first: f32, second: f32)
    requires { at + 3 < 18262 }
{
    put_flag(words, at, high);
    put_flag(words, at + 1, low);
    put_float32(words, at + 2, first);
    put_float32(words, at + 3, second);
}

fn put_soft(words: &mut [u64; WORDS], at: usize, soft: Option<Soft>)
    requires { at + 4 < 18262 }
{
    match soft {
        None => {
            words[at] = 0;
            put_record(words, at + 1, false, false, 0.0, 0.0);
        }
        Some(s) => {
            words[at] = 1;
            put_record(
                words,
                at + 1,
                s.high_sign,
                s.low_sign,
                s.high_reliability,
                s.low_reliability,
            );
        }
    }
}

fn put_records(words: &mut [u64; WORDS], from: usize, records: Records)
    requires { from + 159 < 18262 }
{
    for i in 0..32 {
        put_soft(words, from + 5 * i, records.slots[i]);
    }
}

fn put_oscillator(words: &mut [u64; WORDS], o: Oscillator) {
    put_float(words, 2, o.real);
    put_float(words, 3, o.imaginary);
    put_float(words, 4, o.step_real);
    put_float(words, 5, o.step_imaginary);
    words[6] = o.renormalize as u64;
}

fn put_three(words: &mut [u64; WORDS], at: usize, first: u64, second: u64, third: u64)
    requires { at + 2 < 18262 }
{
    words[at] = first;
    words[at + 1] = second;
    words[at + 2] = third;
}

fn put_decimator(words: &mut [u64; WORDS], d: Decimator) {
    let a = d.integrators.real;
    let b = d.integrators.imaginary;
    let x = d.combs.real;
    let y = d.combs.imaginary;
    words[7] = d.decimation as u64;
    words[8] = d.counter as u64;
    put_three(words, 9, a.first, a.second, a.third);
    put_three(words, 12, b.first, b.second, b.third);
    put_three(words, 15, x.first, x.second, x.third);
    put_three(words, 18, y.first, y.second, y.third);
}

fn put_resampler(words: &mut [u64; WORDS], r: Resampler) {
    words[21] = r.arm as u64;
    words[22] = r.half as u64;
    put_float(words, 23, r.step);
    words[24] = r.index;
    put_float(words, 25, r.next);
    words[26] = r.write as u64;
}

fn put_keeper(words: &mut [u64; WORDS], k: KeeperPlace) {
    words[27] = k.head as u64;
    words[28] = k.fill as u64;
    put_float32(words, 29, k.reference);
}

fn put_clock(words: &mut [u64; WORDS], c: ClockPlace) {
    words[30] = c.start as u64;
    words[31] = c.count as u64;
    words[32] = c.position as u64;
    put_flag(words, 33, c.warm);
    put_float32(words, 34, c.phase);
    put_float32(words, 35, c.rate);
}

fn put_loop(words: &mut [u64; WORDS], at: usize, l: Loop)
    requires { at + 4 < 18262 }
{
    put_float(words, at, l.phase);
    put_float(words, at + 1, l.frequency);
    words[at + 2] = l.alternation as u64;
    put_flag(words, at + 3, l.locked);
    put_float(words, at + 4, l.error);
}

fn put_detector(words: &mut [u64; WORDS], at: usize, d: DetectorPlace)
    requires { at + 10 < 18262 }
{
    words[at] = d.write as u64;
    words[at + 1] = d.filled as u64;
    put_previous(words, at + 2, d.previous);
    put_observation(words, at + 4, d.combined);
    put_three(words, at + 7, 0, 0, 0);
    put_float32(words, at + 10, d.noise);
}

fn put_carrier(words: &mut [u64; WORDS], at: usize, c: CarrierPlace)
    requires { at + 15 < 18262 }
{
    put_loop(words, at, c.turn);
    put_detector(words, at + 5, c.detector);
}

fn put_view(words: &mut [u64; WORDS], v: ViewPlace) {
    put_observation(words, 52, v.previous);
    words[55] = v.head as u64;
    words[56] = v.count as u64;
}

fn put_front(words: &mut [u64; WORDS], f: FrontPlace) {
    put_oscillator(words, f.oscillator);
    put_decimator(words, f.decimator);
    put_resampler(words, f.resampler);
}

fn put_chain(words: &mut [u64; WORDS], c: ChainPlace) {
    words[1] = profile_word(c.profile);
    put_keeper(words, c.keeper);
    put_clock(words, c.clock);
    put_carrier(words, 36, c.carrier);
    put_view(words, c.view);
    words[57] = c.symbols;
    words[58] = c.locked;
}

// A plane to its words.
fn put_plane(words: &mut [u64; WORDS], from: usize, plane: &[f32])
    requires { from < 18262 }
{
    for i in 0..plane.len() {
        let at = from + i;
        if at < WORDS {
            words[at] = u64::from(pattern32(plane[i]));
        }
    }
}

// The real parts from there on, and then the imaginary ones.
fn put_planes<const N: usize>(words: &mut [u64; WORDS], from: usize, planes: &Planes<N>)
    requires { from + N < 18262 }
{
    put_plane(words, from, &planes.real);
    put_plane(words, from + N, &planes.imaginary);
}

fn put_parents(words: &mut [u64; WORDS], from: usize, parents: &[u8; PARENTS])
    requires { from + 2047 < 18262 }
{
    for i in 0..PARENTS {
        words[from + i] = u64::from(parents[i]);
    }
}

pub fn put_second(
    words: &mut [u64; WORDS],
    s: Second,
    memory: &[f32; MEMORY],
    ancestors: &[u8; PARENTS],
) {
    put_flag(words, 6757, s.enabled);
    put_carrier(words, 6758, s.carrier);
    put_records(words, 6774, s.records);
    put_plane(words, 6934, memory);
    put_parents(words, 16214, ancestors);
}

pub fn encode(r: &Receiver, words: &mut [u64; WORDS]) {
    words[0] = r.total;
    put_front(words, r.front);
    put_chain(words, r.chain);
    put_records(words, 4549, r.records);
    put_planes(words, 59, &r.ring);
    put_planes(words, 1243, &r.planes.recovery.keeper);
    put_planes(words, 1371, &r.planes.recovery.clock);
    put_planes(words, 1883, &r.planes.recovery.weights);
    put_planes(words, 1925, &r.planes.decisions.channels);
    put_plane(words, 2437, &r.planes.decisions.costs);
    put_planes(words, 4709, &r.planes.decisions.view);
    put_parents(words, 2501, &r.planes.decisions.parents);
    put_second(words, r.second, &r.memory, &r.ancestors);
}
