// The carrier loop, whichever detector it runs around: it turns each symbol back by its phase and by
// the constellation's alternation, and follows the phase of what the detector missed by.
#![tactic(auto)]

ghost use Rattle.std.specs.Prelude.{◌≡◌, ◌≤◌};
ghost use Rattle.carrier.specs.Carrier.{fresh_place, admitted_of, rotation_of, turned_back_of, corrected_of, unwound_of, phase_error_of};
ghost use Rattle.carrier.specs.Carrier.{frequency_after_of, phase_after_of, error_after_of, is_locked, loop_after_of, carried_with};

use answers::soft::Soft;
use answers::walk::Dibit;
use complex::{Complex32, Complex64};
use numbers::TURN;
use numbers::compare::clamp;
use numbers::narrow::widen;
use roots::sqrt;
use routines::circle::{SineCosine, sine_cosine};
use sequence::step::{Detected, DetectorPlace};
use whole::round_ties_even;

const PI: f64 = 3.141592653589793;

// Phase and frequency (radians a symbol), the alternation of the constellation, whether the loop is
// locked, and the smoothed size of its error.
#[derive(Clone, Copy)]
pub struct Loop {
    pub phase: f64,
    pub frequency: f64,
    pub alternation: u32,
    pub locked: bool,
    pub error: f64,
}

#[derive(Clone, Copy)]
pub struct CarrierPlace {
    pub turn: Loop,
    pub detector: DetectorPlace,
}

#[derive(Clone, Copy)]
pub struct Carried {
    pub place: CarrierPlace,
    pub answer: Option<Dibit>,
    pub soft: Option<Soft>,
    pub equalized: Option<Complex32>,
}

pub fn fresh() -> CarrierPlace
    ensures { result ≡ fresh_place }
{
    CarrierPlace {
        turn: Loop {
            phase: 0.0,
            frequency: 0.0,
            alternation: 0,
            locked: false,
            error: 0.0,
        },
        detector: sequence::step::fresh(),
    }
}

// The alternation is at most 7, and the detector's place may be run.
pub fn is_admitted(c: CarrierPlace) -> bool
    ensures { result ≡ admitted_of c }
{
    (c.turn.alternation <= 7) & sequence::admitted::is_admitted(c.detector)
}

// The constellation turns by pi / 4 with each symbol.
fn rotation(l: Loop) -> f64
    ensures { result ≡ rotation_of l }
{
    l.phase + (l.alternation as f64) * PI / 4.0
}

// The sample turned back by an angle, in f64, each part narrowed once.
fn turned_back(t: SineCosine, sample: Complex32) -> Complex32
    ensures { result ≡ turned_back_of t sample }
{
    let real = widen(sample.real);
    let imaginary = widen(sample.imaginary);
    complex::narrowed(Complex64 {
        real: real * t.cosine + imaginary * t.sine,
        imaginary: imaginary * t.cosine - real * t.sine,
    })
}

// The symbol as the detector takes it.
pub fn corrected(l: Loop, sample: Complex32) -> Complex32
    ensures { result ≡ corrected_of l sample }
{
    turned_back(sine_cosine(rotation(l)), sample)
}

// A phase brought to -pi..=pi.
fn unwound(phase: f64) -> f64
    ensures { result ≡ unwound_of phase }
{
    phase - round_ties_even(phase / TURN) * TURN
}

fn phase_error(e: f32) -> f64
    ensures { result ≡ phase_error_of e }
{
    widen(clamp(e, -0.5, 0.5))
}

fn frequency_after(frequency: f64, e: f64) -> f64
    ensures { result ≡ frequency_after_of frequency e }
{
    clamp(frequency + 0.003 * e, -0.65, 0.65)
}

fn phase_after(phase: f64, frequency: f64, e: f64) -> f64
    ensures { result ≡ phase_after_of phase frequency e }
{
    unwound(phase + (frequency + 0.2 * e))
}

fn error_after(error: f64, power: f32) -> f64
    ensures { result ≡ error_after_of error power }
{
    0.98 * error + 0.02 * widen(sqrt(power))
}

fn is_locked(reliable: bool, error: f64) -> bool
    ensures { result ≡ is_locked reliable error }
{
    reliable & (error < 0.4)
}

// The loop after a step with this phase error and this power of the error.
fn loop_after(l: Loop, phase: f32, power: f32, reliable: bool) -> Loop
    requires { l.alternation ≤ 7 }
    ensures { result ≡ loop_after_of l phase power reliable }
{
    let e = phase_error(phase);
    let frequency = frequency_after(l.frequency, e);
    let error = error_after(l.error, power);
    Loop {
        phase: phase_after(l.phase, frequency, e),
        frequency,
        alternation: (l.alternation + 1) % 8,
        locked: is_locked(reliable, error),
        error,
    }
}

// What the detector gives of a symbol, and the loop that has followed it.
pub fn carry(l: Loop, d: Detected, reliable: bool) -> Carried
    requires { l.alternation ≤ 7 }
    ensures { result ≡ carried_with l d reliable }
{
    let turn = loop_after(l, d.phase, d.power, reliable);
    Carried {
        place: CarrierPlace {
            turn,
            detector: d.place,
        },
        answer: d.answer,
        soft: d.soft,
        equalized: d.equalized,
    }
}
