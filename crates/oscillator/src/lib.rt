// The mixer: a complex oscillator that turns by one step a sample, in f64, and moves the channel to 0
// hertz.
#![tactic(auto)]

ghost use Rattle.std.specs.Prelude.{◌≡◌, ◌<◌};
ghost use Rattle.oscillator.specs.declared.Step.{Step};
ghost use Rattle.oscillator.specs.Oscillator.{fresh_of, admitted_of, renormalized_of, turned_of, conjugated_of, mirrored_of, Number, product_of, mixed_of, stepped_of};

use complex::{Complex32, Complex64};
use roots::sqrt;
use routines::circle::{cosine, sine};

// Where the oscillator stands, the step it is multiplied by at each turn, and how many turns ago it was
// brought to size 1: 0 to 4,095.
#[derive(Clone, Copy)]
pub struct Oscillator {
    pub real: f64,
    pub imaginary: f64,
    pub step_real: f64,
    pub step_imaginary: f64,
    pub renormalize: usize,
}

// After a sample: the oscillator, and the sample mixed.
#[derive(Clone, Copy)]
pub struct Step {
    pub oscillator: Oscillator,
    pub value: Complex32,
}

const PI: f64 = 3.141592653589793;

// After so many turns the oscillator is brought to size 1 again: each turn's rounding moves it off.
const PERIOD: usize = 4096;

// Starts at 1 and turns by -2 pi offset / rate a sample, which moves `offset` hertz to 0; `rate` is in
// samples a second. Offset 0 gives the step an imaginary part of -0.
pub fn fresh(rate: f64, offset: f64) -> Oscillator
    ensures { result ≡ fresh_of rate offset }
{
    let angle = -2.0 * PI * offset / rate;
    Oscillator {
        real: 1.0,
        imaginary: 0.0,
        step_real: cosine(angle),
        step_imaginary: sine(angle),
        renormalize: 0,
    }
}

// Whether this oscillator may be run, be it from a setup or handed in.
pub fn is_admitted(o: Oscillator) -> bool
    ensures { result ≡ admitted_of o }
{
    o.renormalize < PERIOD
}

// Whether the samples of a profile are conjugated as they are mixed, which mirrors their spectrum about
// 0 hertz: those of profile 1 alone.
pub fn is_conjugated(profile: i32) -> bool
    ensures { result ≡ conjugated_of profile }
{
    profile == 1
}

// The oscillator divided by its size, its count of turns at 0.
fn renormalized(o: Oscillator) -> Oscillator
    ensures { result ≡ renormalized_of o }
{
    let size = sqrt(o.real * o.real + o.imaginary * o.imaginary);
    Oscillator {
        real: o.real / size,
        imaginary: o.imaginary / size,
        renormalize: 0,
        ..o
    }
}

// One step on; every 4,096th step brings it to size 1. In the receiver `mix` alone calls it.
pub fn turned(o: Oscillator) -> Oscillator
    requires { o.renormalize < 4096 }
    ensures { result ≡ turned_of o }
{
    let next = Oscillator {
        real: o.real * o.step_real - o.imaginary * o.step_imaginary,
        imaginary: o.real * o.step_imaginary + o.imaginary * o.step_real,
        renormalize: o.renormalize + 1,
        ..o
    };
    if next.renormalize == PERIOD {
        renormalized(next)
    } else {
        next
    }
}

// The imaginary part, negated where the sample is conjugated.
fn mirrored(conjugated: bool, imaginary: f64) -> f64
    ensures { result ≡ mirrored_of conjugated imaginary }
{
    if conjugated { -imaginary } else { imaginary }
}

// The sample times the oscillator, before it is narrowed.
fn product(o: Oscillator, sample: Complex32, conjugated: bool) -> Complex64
    requires { Number sample }
    ensures { result ≡ product_of o sample conjugated }
{
    let real = sample.real as f64;
    let imaginary = sample.imaginary as f64;
    Complex64 {
        real: real * o.real - imaginary * o.imaginary,
        imaginary: mirrored(conjugated, real * o.imaginary + imaginary * o.real),
    }
}

// The sample times the oscillator, conjugated where the profile says so, each part rounded to f32 once.
// In the receiver `mix` alone calls it.
pub fn mixed(o: Oscillator, sample: Complex32, conjugated: bool) -> Complex32
    requires { Number sample }
    ensures { result ≡ mixed_of o sample conjugated }
{
    complex::narrowed(product(o, sample, conjugated))
}

// Mixes the sample by the lent oscillator as it stands, and leaves the oscillator one step on.
pub fn mix(o: &mut Oscillator, sample: Complex32, conjugated: bool) -> Complex32
    requires { Number sample × (o.old.renormalize < 4096) }
    ensures { ◌≡◌ {A = Step} (record { oscillator = o.new; value = result }) (stepped_of o.old sample conjugated) }
{
    let before = *o;
    *o = turned(before);
    mixed(before, sample, conjugated)
}

// The same by value: the oscillator's copy is lent to `mix`.
pub fn stepped(o: Oscillator, sample: Complex32, conjugated: bool) -> Step
    requires { Number sample × (o.renormalize < 4096) }
    ensures { result ≡ stepped_of o sample conjugated }
{
    let mut oscillator = o;
    let value = mix(&mut oscillator, sample, conjugated);
    Step { oscillator, value }
}
