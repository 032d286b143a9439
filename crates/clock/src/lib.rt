// Clock recovery: a ring of 256 samples at four to a symbol, the matched filter's arm and windows
// for each symbol, and a loop that turns the arms by a timing error. Ring and windows are planes of
// real and imaginary parts that the caller lends.
#![tactic(auto)]

ghost use Rattle.std.specs.Prelude.{◌≡◌};
ghost use Rattle.clock.specs.Clock.{fresh_place, counts_fit, admitted_of, stepped_of, updated_of};
ghost use Rattle.clock.specs.Ranges.{Admitted, After};
ghost use Rattle.clock.specs.Lends.{Leaves};

mod phase;
mod tick;

use complex::Complex32;
use filter::{RING, TAPS, WINDOWS, matched};
use numbers::compare::clamp;
use tick::ticked;

// Where the clock stands: the ring's oldest sample and how many it holds, where the next window
// begins before the phase moves it, whether the first window has been reached, the phase in arms
// (32 to a sample) and its drift a symbol.
#[derive(Clone, Copy)]
pub struct ClockPlace {
    pub start: usize,
    pub count: usize,
    pub position: usize,
    pub warm: bool,
    pub phase: f32,
    pub rate: f32,
}

// A symbol that is due: the arm it is matched with, and the ring's place where its windows begin.
#[derive(Clone, Copy)]
pub struct Due {
    pub arm: usize,
    pub from: usize,
}

// The place after a sample, and the symbol that is due, where there is one.
#[derive(Clone, Copy)]
pub struct Stepped {
    pub place: ClockPlace,
    pub due: Option<Due>,
}

// A cold clock: nothing in the ring, the phase in the middle of the arms.
pub fn fresh() -> ClockPlace
    ensures { result ≡ fresh_place }
{
    ClockPlace {
        start: 0,
        count: 0,
        position: 0,
        warm: false,
        phase: 16.0,
        rate: 0.0,
    }
}

// Whether the counts are those of a cold clock (position 0, at most 82 samples) or of a warm one
// (position 5 to 12, at most 100 samples more than that).
fn counts_fit(c: ClockPlace) -> bool
    ensures { result ≡ counts_fit c }
{
    if c.warm {
        if c.position <= 12 {
            return (5 <= c.position) & (c.count <= 100 + c.position);
        }
        return false;
    }
    (c.position == 0) & (c.count <= 82)
}

// Whether the place may be stepped, be it fresh or handed in: the ring's place below 256, the counts
// of a cold or a warm clock, the phase in -16..=48 and the rate in -0.1..=0.1. NaN passes as a phase
// and as a rate.
pub fn is_admitted(c: ClockPlace) -> bool
    ensures { result ≡ admitted_of c }
{
    let floats = (!(c.phase < -16.0) & !(48.0 < c.phase)) & (!(c.rate < -0.1) & !(0.1 < c.rate));
    (c.start < RING) & (counts_fit(c) & floats)
}

// Takes a sample. Where that brings a symbol, its 21 matched values and derivatives are written;
// otherwise the windows stay as they are.
pub fn step<'a>(
    c: ClockPlace,
    sample: Complex32,
    taps: &'a [f32; TAPS],
    derivatives: &'a [f32; TAPS],
    ring_real: &mut [f32; RING],
    ring_imaginary: &mut [f32; RING],
    value_real: &mut [f32; WINDOWS],
    value_imaginary: &mut [f32; WINDOWS],
    derivative_real: &mut [f32; WINDOWS],
    derivative_imaginary: &mut [f32; WINDOWS],
) -> Stepped
    requires { Admitted c }
    ensures same { Leaves ring_real ring_imaginary value_real value_imaginary derivative_real derivative_imaginary result
        (λ real imaginary windows after. after ≡ stepped_of taps.now derivatives.now c sample real imaginary windows) }
    ensures kept { After result.due result.place }
{
    let s = ticked(c, sample, ring_real, ring_imaginary);
    let Some(symbol) = s.due else {
        return s;
    };
    matched(
        taps,
        derivatives,
        ring_real,
        ring_imaginary,
        symbol.arm,
        symbol.from,
        value_real,
        value_imaginary,
        derivative_real,
        derivative_imaginary,
    );
    s
}

// The loop's bandwidth, and from it what a timing error moves phase and rate by.
const BANDWIDTH: f32 = 0.01;

const DENOMINATOR: f32 = 1.0 + 128.0 * BANDWIDTH + BANDWIDTH * BANDWIDTH;

const ALPHA: f32 = 256.0 * BANDWIDTH / DENOMINATOR;

const BETA: f32 = 4.0 * BANDWIDTH * BANDWIDTH / DENOMINATOR;

// The loop turned by a symbol's timing error: four turns, one for each sample of the symbol. A NaN
// stays in the rate, and so in the phase.
pub fn update(c: ClockPlace, error: f32) -> ClockPlace
    ensures { result ≡ updated_of c error }
{
    let mut phase = c.phase + c.rate;
    let mut rate = c.rate;
    for _turn in 0..4usize {
        rate = rate + BETA * error;
        phase = phase + (rate + ALPHA * error);
    }
    ClockPlace {
        phase,
        rate: clamp(rate, -0.1, 0.1),
        ..c
    }
}
