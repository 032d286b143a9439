// Runs the filter design, the decimator and the resampler on each run from standard input, and
// writes what it asks for, in the order of the list that the oracle prints. The samples of a run are
// made from its seed.
#![tactic(auto)]

ghost use Rattle.std.specs.Prelude.{◌^◌, ◌<◌, ◌≤◌, length};
ghost use Rattle.resampler.specs.Admitted.{Admitted};
ghost use Rattle.replay_resampler.specs.Held.{Held};

use complex::Complex32;
use decimator::Decimator;
use numbers::bits::float;
use replay::{
    mixed, mixed_float, mixed_float32, mixed_plane, next, print_line, record, sample_part, word,
};
use resampler::design::TABLE;
use resampler::dimensions::Dimensions;
use resampler::pass::{PLACES, Passed, Resampler};

// The most values that come in over a state's life: 2^52.
const MOST: u64 = 4503599627370496;

#[derive(Clone, Copy)]
struct Request {
    asked: u64,
    rate: f64,
    handed: u64,
    step: f64,
    index: u64,
    next: f64,
    write: u64,
    seed: u64,
    kind: u64,
    count: u64,
}

fn decoded(head: &[u8]) -> Request
    requires { 64 ≤ length head.now }
{
    let last = word(head, 56);
    Request {
        asked: word(head, 0),
        rate: float(word(head, 8)),
        handed: word(head, 16),
        step: float(word(head, 24)),
        index: word(head, 32),
        next: float(word(head, 40)),
        write: word(head, 48),
        seed: last % 0x1_0000_0000,
        kind: last / 0x1_0000_0000 % 16,
        count: last / 0x10_0000_0000,
    }
}

// The state that a run starts from: fresh, or as handed in.
fn started(q: Request, s: Dimensions) -> Resampler {
    let mut r = resampler::dimensions::fresh(s);
    if q.handed > 0 {
        r.step = q.step;
        r.index = q.index;
        r.next = q.next;
        r.write = q.write as usize;
    }
    r
}

fn filling(handed: u64, place: usize, slope: f32, offset: f32) -> f32
    requires { place < 592 }
{
    if handed > 0 {
        slope * std::num::nearest_u32_to_f32(place as u32) - offset
    } else {
        0.0
    }
}

// The ring that stands there: zeros, or numbers that tell the places apart.
fn fill(handed: u64, reals: &mut [f32; PLACES], imaginaries: &mut [f32; PLACES]) {
    for i in 0..PLACES {
        reals[i] = filling(handed, i, 1.0, 100.5);
        imaginaries[i] = filling(handed, i, -1.0, -200.25);
    }
}

// A decimated value, or none, into the resampler.
fn taken(
    value: Option<Complex32>,
    r: Resampler,
    table: &[f32; TABLE],
    reals: &mut [f32; PLACES],
    imaginaries: &mut [f32; PLACES],
) -> Passed
    requires admitted { Admitted r }
    requires index_bound { r.index < 2 ^ 52 }
    ensures { Held r result }
{
    match value {
        None => Passed {
            resampler: r,
            count: 0,
            first: complex::zero(),
            second: complex::zero(),
        },
        Some(v) => resampler::pass::resampled(r, v, table, reals, imaginaries),
    }
}

fn mixed_pair(h: u64, v: Complex32) -> u64 {
    mixed_float32(mixed_float32(h, v.real), v.imaginary)
}

fn mixed_outputs(h: u64, p: Passed) -> u64 {
    let a = mixed(h, p.count as u64);
    let b = if p.count > 0 {
        mixed_pair(a, p.first)
    } else {
        a
    };
    if p.count > 1 {
        mixed_pair(b, p.second)
    } else {
        b
    }
}

fn mixed_state(h: u64, r: Resampler, d: Decimator) -> u64 {
    let a = mixed(h, r.index);
    let b = mixed_float(a, r.next);
    let c = mixed(b, r.write as u64);
    mixed(c, d.counter as u64)
}

// What a run of samples gives: a line for each, or the digest of all.
fn run(
    q: Request,
    r0: Resampler,
    d0: Decimator,
    table: &[f32; TABLE],
    reals: &mut [f32; PLACES],
    imaginaries: &mut [f32; PLACES],
) -> u64
    requires admitted { Admitted r0 }
    requires counter_lt_decimation { d0.counter < d0.decimation }
{
    let mut d = d0;
    let mut r = r0;
    let mut s = q.seed;
    let mut h: u64 = 0;
    for _ in 0..q.count {
        if r.index >= MOST {
            break;
        }
        let t = next(s);
        s = next(t);
        let z = Complex32 {
            real: sample_part(t, q.kind),
            imaginary: sample_part(s, q.kind),
        };
        let n = decimator::stepped(d, z);
        let p = taken(n.output, r, table, &mut *reals, &mut *imaginaries);
        h = mixed_outputs(h, p);
        if q.asked == 2 {
            print_line(p.count as u64, 16);
        }
        d = n.decimator;
        r = p.resampler;
    }
    mixed_state(h, r, d)
}

fn print_float(x: f64) {
    print_line(numbers::bits::pattern(x), 16);
}

fn print_tap(table: &[f32; TABLE], place: usize)
    requires { place < 18432 }
{
    let tap = table[place];
    print_line(numbers::bits::pattern32(tap) as u64, 16);
}

fn print_design(s: Dimensions, step: f64, digest: u64, table: &[f32; TABLE])
    requires le_arm { 14 ≤ s.arm }
    requires arm_bound { s.arm ≤ 576 }
{
    let arm = s.arm;
    print_line(s.decimation as u64, 16);
    print_line(arm as u64, 16);
    print_float(step);
    print_line(digest, 16);
    print_tap(table, 0);
    print_tap(table, arm - 1);
    print_tap(table, arm);
    print_tap(table, 16 * arm + arm / 2);
    print_tap(table, 32 * arm - 1);
}

// Runs are answered where their rate and state are admitted, as all of the list are.
fn answer(q: Request) {
    if q.rate >= 9600.0 && q.rate <= 20000000.0 {
        let s = resampler::dimensions::sized(q.rate);
        let mut table: [f32; TABLE] = [0.0; TABLE];
        resampler::design::write_table(s.arm, s.rate, &mut table);
        let r = started(q, s);
        if q.asked == 0 {
            let digest = mixed_plane(0, &table[..32 * s.arm]);
            print_design(s, r.step, digest, &table);
            return;
        }
        let mut reals: [f32; PLACES] = [0.0; PLACES];
        let mut imaginaries: [f32; PLACES] = [0.0; PLACES];
        fill(q.handed, &mut reals, &mut imaginaries);
        if resampler::pass::is_admitted(r) {
            let d = decimator::fresh(s.decimation);
            let h = run(q, r, d, &table, &mut reals, &mut imaginaries);
            if q.asked == 1 {
                print_line(h, 16);
            }
        }
    }
}

fn main() {
    for head in std::iter::from_fn(record::<64>).take(1_000_000) {
        answer(decoded(&head));
    }
}
