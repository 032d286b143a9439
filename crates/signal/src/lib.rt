// The constellation view: the last 1,024 differential points, for display alone; nothing of it goes
// back into the receiver. Its ring is two planes that the caller lends, real and imaginary parts.
#![tactic(auto)]

ghost use Rattle.std.specs.Prelude.{◌≡◌, ◌+◌, ◌*◌, ◌<◌, ◌≤◌, min, true, length};
ghost use Rattle.signal.specs.Signal.{WrittenPoints, Read, fresh_place, admitted_of, rotated_of, paired_of, pushed_of, mean_of, missed_of, written_of, usable_of, read_of};
ghost use Rattle.signal.specs.Lends.{Reads, Leaves, ReadsPoints, LeavesFloats};
ghost use Rattle.signal.specs.Plain.{PlainRound, PlainAmplitude};
ghost use Rattle.signal.specs.Powers.{PowerOf};

mod plain;
mod rows;

use complex::Complex32;
use numbers::compare::{abs, is_finite};
use numbers::narrow::{narrow, widen};
use plain::{Power, are_plain, is_common, power_run};
use roots::sqrt;
use rows::write_run;

// The points that the view holds.
pub const POINTS: usize = 1024;

// 1 / sqrt(2) in f32, by which the sum and the difference of two parts are a turn by pi / 4.
const ROOT_HALF: f32 = 0.70710677;

// 1 / sqrt(2) in f64, the size of either part of a point of amplitude 1 on a diagonal.
const IDEAL: f64 = 0.7071067811865476;

// What the view keeps beside its ring: the last observation, where the next point goes, and how
// many points are held, at most 1,024.
#[derive(Clone, Copy)]
pub struct ViewPlace {
    pub previous: Option<Complex32>,
    pub head: usize,
    pub count: usize,
}

// How many points were written, and their error in percent of the ideal amplitude.
#[derive(Clone, Copy)]
pub struct Reading {
    pub count: usize,
    pub error: f64,
}

// A view that holds nothing.
pub fn fresh() -> ViewPlace
    ensures { result ≡ fresh_place }
{
    ViewPlace {
        previous: None,
        head: 0,
        count: 0,
    }
}

// Whether a place may be run, be it fresh or handed in: its head is below 1,024, its count at most
// 1,024.
pub fn is_admitted(p: ViewPlace) -> bool
    ensures { result ≡ admitted_of p }
{
    (p.head < POINTS) & (p.count <= POINTS)
}

// The symbol times the conjugate of the one before, turned by pi / 4: the turn that the receiver
// took out is put back, so that the four points stand where the modulation has them.
fn rotated(previous: Complex32, symbol: Complex32) -> Complex32
    ensures { result ≡ rotated_of previous symbol }
{
    let product = complex::multiplied_conjugate(symbol, previous);
    Complex32 {
        real: (product.real - product.imaginary) * ROOT_HALF,
        imaginary: (product.real + product.imaginary) * ROOT_HALF,
    }
}

// The point of two observations: zero where one is absent.
fn paired(previous: Option<Complex32>, symbol: Option<Complex32>) -> Complex32
    ensures { result ≡ paired_of previous symbol }
{
    let Some(before) = previous else {
        return complex::zero();
    };
    let Some(now) = symbol else {
        return complex::zero();
    };
    rotated(before, now)
}

// One point more, at most 1,024.
fn counted(count: usize) -> usize
    ensures { result ≡ min (count + 1) 1024 }
{
    if count < POINTS { count + 1 } else { POINTS }
}

// Puts the point of `symbol` and the observation before it in the place of the oldest.
pub fn push(
    place: ViewPlace,
    symbol: Option<Complex32>,
    real: &mut [f32; POINTS],
    imaginary: &mut [f32; POINTS],
) -> ViewPlace
    requires { place.head < 1024 }
    ensures { Leaves place result real imaginary (λ view after. after ≡ pushed_of view symbol) }
{
    let head = place.head;
    let point = paired(place.previous, symbol);
    real[head] = point.real;
    imaginary[head] = point.imaginary;
    ViewPlace {
        previous: symbol,
        head: (head + 1) % POINTS,
        count: counted(place.count),
    }
}

// The powers of `count` points from `start` on, added up in that order: up to the ring's end, and then
// from its beginning.
fn power_sum(real: &[f32; POINTS], imaginary: &[f32; POINTS], start: usize, count: usize) -> Power
    requires start_bound { start < 1024 }
    requires count_bound { count ≤ 1024 }
    ensures { PowerOf real.now imaginary.now start count result }
{
    let first = count.min(POINTS - start);
    let none = Power {
        sum: 0.0,
        across: 0xffff_ffff,
        up: 0xffff_ffff,
    };
    let early = power_run(real, imaginary, start, first, none);
    power_run(real, imaginary, 0, count - first, early)
}

// A sum over its count.
fn mean(sum: f64, count: usize) -> f64
    requires { count ≤ 1024 }
    ensures { result ≡ mean_of sum count }
{
    sum / (count as f64)
}

// The square of how far a part, whatever its sign, lies from the ideal.
fn missed(part: f64) -> f64
    ensures { result ≡ missed_of part }
{
    let distance = abs(part) - IDEAL;
    distance * distance
}

// Writes `count` points from `start` on over their amplitude, each part rounded once, and adds up
// their squared errors.
fn write_points(
    real: &[f32; POINTS],
    imaginary: &[f32; POINTS],
    start: usize,
    count: usize,
    amplitude: f64,
    output: &mut [f32],
) -> f64
    requires start_bound { start < 1024 }
    requires count_bound { count ≤ 1024 }
    requires count_in_bounds { count * 2 ≤ length output.old }
    ensures { ReadsPoints real imaginary start count (λ points. LeavesFloats output (λ before after.
        ◌≡◌ {A = WrittenPoints} (record { errors = result; output = after }) (written_of amplitude points before))) }
{
    let mut sum = 0.0f64;
    for i in 0..count {
        let at = (start + i) % POINTS;
        let x = widen(real[at]) / amplitude;
        let y = widen(imaginary[at]) / amplitude;
        sum = sum + (missed(x) + missed(y));
        output[i * 2] = narrow(x);
        output[i * 2 + 1] = narrow(y);
    }
    sum
}

// Writes the same where parts and amplitude are plain: up to the ring's end, and then from its
// beginning.
fn write_plain(
    real: &[f32; POINTS],
    imaginary: &[f32; POINTS],
    start: usize,
    count: usize,
    amplitude: f64,
    output: &mut [f32],
) -> f64
    requires start_bound { start < 1024 }
    requires count_bound { count ≤ 1024 }
    requires count_in_bounds { count * 2 ≤ length output.old }
    requires plain_round { PlainRound real.now imaginary.now start count }
    requires plain_amplitude { PlainAmplitude amplitude }
    ensures { ReadsPoints real imaginary start count (λ points. LeavesFloats output (λ before after.
        ◌≡◌ {A = WrittenPoints} (record { errors = result; output = after }) (written_of amplitude points before))) }
{
    let first = count.min(POINTS - start);
    let early = write_run(
        real,
        imaginary,
        start,
        0,
        first,
        amplitude,
        &mut *output,
        0.0,
    );
    write_run(
        real,
        imaginary,
        0,
        first,
        count - first,
        amplitude,
        &mut *output,
        early,
    )
}

// Writes the points by rows where parts and amplitude are plain, and else one by one.
fn write(
    real: &[f32; POINTS],
    imaginary: &[f32; POINTS],
    start: usize,
    count: usize,
    amplitude: f64,
    plain: bool,
    output: &mut [f32],
) -> f64
    requires start_bound { start < 1024 }
    requires count_bound { count ≤ 1024 }
    requires count_in_bounds { count * 2 ≤ length output.old }
    requires plain_round { plain ≡ true → PlainRound real.now imaginary.now start count }
    ensures { ReadsPoints real imaginary start count (λ points. LeavesFloats output (λ before after.
        ◌≡◌ {A = WrittenPoints} (record { errors = result; output = after }) (written_of amplitude points before))) }
{
    if is_common(plain, amplitude) {
        write_plain(real, imaginary, start, count, amplitude, output)
    } else {
        write_points(real, imaginary, start, count, amplitude, output)
    }
}

// Whether there are points, and their mean power is finite and not under 1e-12.
fn is_usable(count: usize, power: f64) -> bool
    ensures { result ≡ usable_of count power }
{
    (count != 0) & is_finite(power) & !(power < 1e-12)
}

// The last min(held, room) points, oldest first, over the root of their mean power, into the floats
// lent: two to a point, so the room is their number halved.
pub fn read(
    place: ViewPlace,
    real: &[f32; POINTS],
    imaginary: &[f32; POINTS],
    output: &mut [f32],
) -> Reading
    requires head_bound { place.head < 1024 }
    requires count_bound { place.count ≤ 1024 }
    ensures { Reads place real imaginary (λ view. LeavesFloats output (λ before after.
        ◌≡◌ {A = Read} (record { reading = result; output = after }) (read_of view before))) }
{
    let count = place.count.min(output.len() / 2);
    let start = (place.head + POINTS - count) % POINTS;
    let powers = power_sum(real, imaginary, start, count);
    let plain = are_plain(powers);
    let power = mean(powers.sum, count);
    if is_usable(count, power) {
        let sum = write(real, imaginary, start, count, sqrt(power), plain, output);
        Reading {
            count,
            error: 100.0 * sqrt(mean(sum, count)),
        }
    } else {
        Reading {
            count: 0,
            error: 0.0,
        }
    }
}
