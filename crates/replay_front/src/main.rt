// Runs the front on each run of samples from standard input, made from the run's seed, and writes a
// line for each: the digest of its values and of the state after them, in the order of the list that
// the oracle prints.
#![tactic(auto)]

ghost use Rattle.std.specs.Prelude.{◌≡◌, not, ◌+◌, ◌-◌, ◌^◌, ◌<◌, ◌≤◌, T, length};
ghost use Rattle.std.specs.Float.Ieee.{is_nan};
ghost use Rattle.front.specs.Admitted.{Admitted, Numbers};

use front::{FrontPlace, ROW};
use numbers::bits::float;
use numbers::compare::is_nan;
use oscillator::Oscillator;
use replay::{
    mixed, mixed_decimator, mixed_float, mixed_float32, mixed_plane, next, print_line, record,
    sample_part, word,
};
use resampler::design::TABLE;
use resampler::pass::{PLACES, Resampler};

// Samples in a block.
const BLOCK: usize = 512;

#[derive(Clone, Copy)]
struct Request {
    rate: f64,
    offset: f64,
    profile: u64,
    turns: usize,
    seed: u64,
    kind: u64,
    skipped: usize,
    blocks: u64,
}

// A place, and the digest of the values that came before it.
#[derive(Clone, Copy)]
struct Told {
    place: FrontPlace,
    digest: u64,
}

fn decoded(head: &[u8]) -> Request
    requires { 56 ≤ length head.now }
{
    let last = word(head, 48);
    Request {
        rate: float(word(head, 0)),
        offset: float(word(head, 8)),
        profile: word(head, 16),
        turns: (word(head, 24) % 4096) as usize,
        seed: word(head, 32),
        kind: word(head, 40),
        skipped: (last % 512) as usize,
        blocks: last / 0x1_0000_0000,
    }
}

// A NaN is no sample that a block takes.
fn number(x: f32) -> f32
    ensures { T (not (is_nan result)) }
{
    if is_nan(x) { 0.0 } else { x }
}

// The parts of a block's samples, and the seed after them.
fn fill(seed: u64, kind: u64, samples: &mut [f32; 1024]) -> u64
    ensures { Numbers samples.new }
{
    let mut s = seed;
    for i in 0..1024 {
        s = next(s);
        samples[i] = number(sample_part(s, kind));
    }
    s
}

// The digest with the first `made` values of a row more.
fn mixed_row(h: u64, real: &[f32; ROW], imaginary: &[f32; ROW], made: usize) -> u64
    requires { made ≤ 256 }
{
    let mut d = h;
    for (&x, &y) in real[..made].iter().zip(imaginary[..made].iter()) {
        d = mixed_float32(mixed_float32(d, x), y);
    }
    d
}

// A block's samples from a place on, row after row.
fn block(
    t: Told,
    conjugated: bool,
    samples: &[f32],
    skipped: usize,
    table: &[f32; TABLE],
    ring_real: &mut [f32; PLACES],
    ring_imaginary: &mut [f32; PLACES],
) -> Told
    requires admitted { Admitted t.place }
    requires numbers { Numbers samples.now }
    requires samples_len { length samples.now ≡ 1024 }
    requires index_bound { t.place.resampler.index + 512 ≤ 2 ^ 52 }
    ensures { Admitted result.place }
{
    let mut row_real: [f32; ROW] = [0.0; ROW];
    let mut row_imaginary: [f32; ROW] = [0.0; ROW];
    let mut place = t.place;
    let mut h = t.digest;
    let mut from = skipped;
    while from < BLOCK {
        let f = front::front(
            place,
            conjugated,
            samples,
            from,
            table,
            &mut *ring_real,
            &mut *ring_imaginary,
            &mut row_real,
            &mut row_imaginary,
        );
        h = mixed_row(h, &row_real, &row_imaginary, f.made);
        place = f.place;
        from = from + f.used;
    }
    Told { place, digest: h }
}

fn mixed_oscillator(h: u64, o: Oscillator) -> u64 {
    let at = mixed_float(mixed_float(h, o.real), o.imaginary);
    let step = mixed_float(mixed_float(at, o.step_real), o.step_imaginary);
    mixed(step, o.renormalize as u64)
}

fn mixed_resampler(h: u64, r: Resampler) -> u64 {
    mixed(mixed_float(mixed(h, r.index), r.next), r.write as u64)
}

fn mixed_place(h: u64, p: FrontPlace) -> u64 {
    let moved = mixed_decimator(mixed_oscillator(h, p.oscillator), p.decimator);
    mixed_resampler(moved, p.resampler)
}

fn mixed_ring(h: u64, real: &[f32; PLACES], imaginary: &[f32; PLACES]) -> u64 {
    mixed_plane(mixed_plane(h, real), imaginary)
}

// The blocks of a run.
fn run(
    q: Request,
    place: FrontPlace,
    table: &[f32; TABLE],
    ring_real: &mut [f32; PLACES],
    ring_imaginary: &mut [f32; PLACES],
) -> u64
    requires { Admitted place }
{
    let mut samples: [f32; 1024] = [0.0; 1024];
    let mut t = Told { place, digest: 0 };
    let mut s = q.seed;
    let mut skipped = q.skipped;
    for _ in 0..q.blocks {
        s = fill(s, q.kind, &mut samples);
        if t.place.resampler.index > 4503599627369000 {
            break;
        }
        t = block(
            t,
            q.profile == 1,
            &samples,
            skipped,
            table,
            &mut *ring_real,
            &mut *ring_imaginary,
        );
        skipped = 0;
    }
    mixed_place(t.digest, t.place)
}

// A fresh front, but for the oscillator's count of turns.
fn started(q: Request, s: resampler::dimensions::Dimensions) -> FrontPlace {
    FrontPlace {
        oscillator: Oscillator {
            renormalize: q.turns,
            ..oscillator::fresh(q.rate, q.offset)
        },
        decimator: decimator::fresh(s.decimation),
        resampler: resampler::dimensions::fresh(s),
    }
}

// Runs are answered where their rate and their front are admitted, as all of the list are.
fn answer(q: Request) {
    if q.rate >= 9600.0 && q.rate <= 20000000.0 {
        let s = resampler::dimensions::sized(q.rate);
        let mut table: [f32; TABLE] = [0.0; TABLE];
        resampler::design::write_table(s.arm, s.rate, &mut table);
        let mut ring_real: [f32; PLACES] = [0.0; PLACES];
        let mut ring_imaginary: [f32; PLACES] = [0.0; PLACES];
        let place = started(q, s);
        if front::is_admitted(place) {
            let h = run(q, place, &table, &mut ring_real, &mut ring_imaginary);
            print_line(mixed_ring(h, &ring_real, &ring_imaginary), 16);
        }
    }
}

fn main() {
    for head in std::iter::from_fn(record::<56>).take(1_000_000) {
        answer(decoded(&head));
    }
}
