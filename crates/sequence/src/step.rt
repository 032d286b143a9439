// One step of the detector with the channels that it is given.
ghost use Rattle.std.specs.Prelude.{◌≡◌, ◌<◌};
ghost use Rattle.sequence.specs.Sequence.{fresh_place, fresh_tap, fresh_real, fresh_records, phase_between_of, power_told_of, one_more_of, reported_of, stepped_of};
ghost use Rattle.sequence.specs.Ranges.{Ranged, Roomy, RangedAfter};
ghost use Rattle.sequence.specs.Lends.{Leaves};

use answers::combine::{Seen, observed};
use answers::soft::{Records, Soft, noise_after, record};
use answers::walk::{Dibit, Walked, store, walk};
use answers::{PARENTS, STEPS};
use channels::channel::taps_at;
use channels::{CHANNELS, STATES};
use complex::{Complex32, multiplied_conjugate, power, subtracted};
use routines::angle::arctangent;
use trellis::step::advance;

// What the detector keeps beside its planes: the row for the next step's parents and record, how
// many steps are held, the symbol that the last walk ended at, the last combined observation, and
// the smoothed power of the residual.
#[derive(Clone, Copy)]
pub struct DetectorPlace {
    pub write: usize,
    pub filled: usize,
    pub previous: Option<usize>,
    pub combined: Option<Complex32>,
    pub noise: f32,
}

// What a step gives: the dibit if there is one, its soft record, what the view sees, and the phase
// and the power of the error for the carrier.
#[derive(Clone, Copy)]
pub struct Detected {
    pub place: DetectorPlace,
    pub answer: Option<Dibit>,
    pub soft: Option<Soft>,
    pub equalized: Option<Complex32>,
    pub phase: f32,
    pub power: f32,
}

// Beside it the costs, the parents and the imaginary plane of the channels are zero.
pub fn fresh() -> DetectorPlace
    ensures { result ≡ fresh_place }
{
    DetectorPlace {
        write: 0,
        filled: 0,
        previous: None,
        combined: None,
        noise: 0.1,
    }
}

fn fresh_tap(i: usize) -> f32
    ensures { result ≡ fresh_tap i }
{
    if i < STATES { 1.0 } else { 0.0 }
}

// The real plane of fresh channels: the main tap is 1.
pub fn fresh_channels() -> [f32; CHANNELS]
    ensures { result ≡ fresh_real }
{
    let mut h = [0.0; CHANNELS];
    for i in 0..CHANNELS {
        h[i] = fresh_tap(i);
    }
    h
}

pub fn fresh_records() -> Records
    ensures { result ≡ fresh_records }
{
    Records {
        slots: [None; STEPS],
    }
}

// The angle from the prediction to the input, and 0 where the input is not reliable.
fn phase_between(input: Complex32, prediction: Complex32, reliable: bool) -> f32
    ensures { result ≡ phase_between_of input prediction reliable }
{
    if reliable {
        let turn = multiplied_conjugate(input, prediction);
        arctangent(turn.imaginary, turn.real)
    } else {
        0.0
    }
}

// The carrier is told a power of 1 where the input is not reliable.
fn power_told(power: f32, reliable: bool) -> f32
    ensures { result ≡ power_told_of power reliable }
{
    if reliable { power } else { 1.0 }
}

// Up to 32 steps are held.
fn one_more(filled: usize) -> usize
    ensures { result ≡ one_more_of filled }
{
    if filled < 32 { filled + 1 } else { 32 }
}

// What the step gives, from the walk back, the observation and the best state's prediction.
fn reported(
    d: DetectorPlace,
    walked: Walked,
    seen: Seen,
    input: Complex32,
    prediction: Complex32,
    reliable: bool,
) -> Detected
    requires { d.write < 32 }
    ensures { result ≡ reported_of d walked seen input prediction reliable }
{
    let residual = power(subtracted(input, prediction));
    let noise = noise_after(d.noise, residual, reliable);
    let place = DetectorPlace {
        write: (d.write + 1) % 32,
        filled: one_more(d.filled),
        previous: walked.previous,
        combined: seen.combined,
        noise,
    };
    Detected {
        place,
        answer: walked.answer,
        soft: record(seen.combined, d.combined, noise),
        equalized: seen.equalized,
        phase: phase_between(input, prediction, reliable),
        power: power_told(residual, reliable),
    }
}

// One step with these channels, which it only reads: a tracker has made them, and follows afterwards
// by what the step leaves in `row` and in the predictions, each state's parent and prediction.
// `oldest` is the record of 31 steps before; the caller puts the step's own in the slot `write`.
pub fn step(
    d: DetectorPlace,
    input: Complex32,
    reliable: bool,
    oldest: Option<Soft>,
    channel_real: &[f32; CHANNELS],
    channel_imaginary: &[f32; CHANNELS],
    costs: &mut [f32; STATES],
    parents: &mut [u8; PARENTS],
    row: &mut [u8; STATES],
    prediction_real: &mut [f32; STATES],
    prediction_imaginary: &mut [f32; STATES],
) -> Detected
    requires ranged { Ranged d costs.old parents.old }
    requires roomy { Roomy row.old prediction_real.old prediction_imaginary.old }
    ensures { Leaves result costs parents row prediction_real prediction_imaginary
        (λ held table after. (after ≡ stepped_of d input reliable oldest
        (record { real = channel_real.now; imaginary = channel_imaginary.now }) held table) × RangedAfter after) }
{
    let best = advance(
        channel_real,
        channel_imaginary,
        input,
        reliable,
        costs,
        row,
        prediction_real,
        prediction_imaginary,
    );
    let prediction = Complex32 {
        real: prediction_real[best],
        imaginary: prediction_imaginary[best],
    };
    let prior = row[best];
    let survivor = taps_at(channel_real, channel_imaginary, prior as usize);
    let seen = observed(input, reliable, survivor, prior as u32);
    store(parents, d.write, row);
    let walked = walk(parents, d.write, d.filled, best, d.previous, oldest);
    reported(d, walked, seen, input, prediction, reliable)
}
