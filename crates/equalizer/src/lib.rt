// The equalizer: 21 taps half a symbol apart, centre 1, adaptation zero. Every row of 21 is lent as
// two planes: wr and wi are the real and imaginary parts of the weights, xr and xi those of the
// window, dr and di those of its derivatives.
#![tactic(auto)]

ghost use Rattle.std.specs.Prelude.{◌≡◌};
ghost use Rattle.equalizer.specs.Lends.{Reads, Leaves};
ghost use Rattle.equalizer.specs.Equalizer.{Step, fresh_real, fresh_imaginary, tapped_of, tap_sums_of};
ghost use Rattle.equalizer.specs.Equalizer.{adapted_of, norm_of, scaled_by, limited_of, step_of, learns_of, updated_of, timing_error_of, equalized_of};

use complex::Complex32;
use numbers::compare::{clamp, is_finite};
use roots::sqrt;

// The weights, one for each window of the matched filter, half a symbol apart.
pub const WEIGHTS: usize = 21;

// The weight in the middle, which a fresh equalizer has at 1.
const CENTRE: usize = 10;

// Zero: adapting to a constant modulus made fading channels worse, and the detector that follows
// models the delayed paths.
const ADAPTATION: f32 = 0.0;

// What one pass over the taps adds up: the weighted window, the weighted derivatives, and the
// window's power.
#[derive(Clone, Copy)]
pub struct Sums {
    pub value: Complex32,
    pub derivative: Complex32,
    pub energy: f32,
}

// The equalized symbol, and how far its instant lies from the middle of the eye.
#[derive(Clone, Copy)]
pub struct Equalized {
    pub value: Complex32,
    pub timing: f32,
}

// The weights of a fresh equalizer.
pub fn fresh_real() -> [f32; WEIGHTS]
    ensures { result ≡ fresh_real }
{
    let mut weights = [0.0; WEIGHTS];
    weights[CENTRE] = 1.0;
    weights
}

pub fn fresh_imaginary() -> [f32; WEIGHTS]
    ensures { result ≡ fresh_imaginary }
{
    [0.0; WEIGHTS]
}

// One tap: its weight w, the window's value x there, and that value's derivative dx.
fn tapped(s: Sums, w: Complex32, x: Complex32, dx: Complex32) -> Sums
    ensures { result ≡ tapped_of s w x dx }
{
    Sums {
        value: complex::added(s.value, complex::multiplied(w, x)),
        derivative: complex::added(s.derivative, complex::multiplied(w, dx)),
        energy: s.energy + complex::power(x),
    }
}

// The sums over all taps, from the first to the last.
fn tap_sums(
    wr: &[f32; WEIGHTS],
    wi: &[f32; WEIGHTS],
    xr: &[f32; WEIGHTS],
    xi: &[f32; WEIGHTS],
    dr: &[f32; WEIGHTS],
    di: &[f32; WEIGHTS],
) -> Sums
    ensures { Reads wr wi (λ w. Reads xr xi (λ x. Reads dr di (λ dx. result ≡ tap_sums_of w x dx))) }
{
    let mut s = Sums {
        value: complex::zero(),
        derivative: complex::zero(),
        energy: 0.0,
    };
    for k in 0..WEIGHTS {
        let w = Complex32 {
            real: wr[k],
            imaginary: wi[k],
        };
        let x = Complex32 {
            real: xr[k],
            imaginary: xi[k],
        };
        let dx = Complex32 {
            real: dr[k],
            imaginary: di[k],
        };
        s = tapped(s, w, x, dx);
    }
    s
}

// Each weight moves by step times the value times the conjugate of the window's value there. A step
// of zero is a step still: zero times a NaN or an infinity is a NaN.
fn adapt(
    wr: &mut [f32; WEIGHTS],
    wi: &mut [f32; WEIGHTS],
    xr: &[f32; WEIGHTS],
    xi: &[f32; WEIGHTS],
    value: Complex32,
    step: f32,
)
    ensures { Leaves wr wi (λ w after. Reads xr xi (λ x. after ≡ adapted_of value step x w)) }
{
    for k in 0..WEIGHTS {
        let x = xr[k];
        let y = xi[k];
        wr[k] += step * (value.real * x + value.imaginary * y);
        wi[k] += step * (value.imaginary * x - value.real * y);
    }
}

// The sum of the weights' powers, in their order.
fn norm(wr: &[f32; WEIGHTS], wi: &[f32; WEIGHTS]) -> f32
    ensures { Reads wr wi (λ w. result ≡ norm_of w) }
{
    let mut sum = 0.0f32;
    for k in 0..WEIGHTS {
        let w = wr[k];
        let v = wi[k];
        sum += w * w + v * v;
    }
    sum
}

// Every weight times the gain.
fn scale(wr: &mut [f32; WEIGHTS], wi: &mut [f32; WEIGHTS], gain: f32)
    ensures { Leaves wr wi (λ w after. after ≡ scaled_by gain w) }
{
    for k in 0..WEIGHTS {
        wr[k] *= gain;
        wi[k] *= gain;
    }
}

// Weights whose norm is above 16 are brought back to it.
fn limit(wr: &mut [f32; WEIGHTS], wi: &mut [f32; WEIGHTS])
    ensures { Leaves wr wi (λ w after. after ≡ limited_of w) }
{
    let size = norm(wr, wi);
    if size > 16.0 {
        scale(wr, wi, 4.0 / sqrt(size));
    }
}

// How far the weights move: adaptation times 1 less the symbol's power, kept in -2..=1, over the
// window's energy.
fn step_of(power: f32, energy: f32) -> f32
    ensures { result ≡ step_of power energy }
{
    ADAPTATION * clamp(1.0 - power, -2.0, 1.0) / energy
}

// Whether the weights move at all: the symbol is reliable, the energy is above 0.01, and energy and
// power are finite.
fn learns(reliable: bool, energy: f32, power: f32) -> bool
    ensures { result ≡ learns_of reliable energy power }
{
    reliable & (energy > 0.01) & is_finite(energy) & is_finite(power)
}

// The weights after a symbol: adapted and limited, or left as they are.
fn update(
    wr: &mut [f32; WEIGHTS],
    wi: &mut [f32; WEIGHTS],
    xr: &[f32; WEIGHTS],
    xi: &[f32; WEIGHTS],
    s: Sums,
    reliable: bool,
)
    ensures { Leaves wr wi (λ w after. Reads xr xi (λ x. after ≡ updated_of s reliable x w)) }
{
    let power = complex::power(s.value);
    if learns(reliable, s.energy, power) {
        adapt(wr, wi, xr, xi, s.value, step_of(power, s.energy));
        limit(wr, wi);
    }
}

// Half the product of the value and its derivative, kept in -1..=1; a NaN stays. Nothing while the
// signal is not reliable.
fn timing_error(s: Sums, reliable: bool) -> f32
    ensures { result ≡ timing_error_of s reliable }
{
    let value = s.value;
    let derivative = s.derivative;
    if reliable {
        let product = value.real * derivative.real + value.imaginary * derivative.imaginary;
        clamp(0.5 * product, -1.0, 1.0)
    } else {
        0.0
    }
}

// One symbol from the windows, with the weights moved on.
pub fn equalize(
    wr: &mut [f32; WEIGHTS],
    wi: &mut [f32; WEIGHTS],
    xr: &[f32; WEIGHTS],
    xi: &[f32; WEIGHTS],
    dr: &[f32; WEIGHTS],
    di: &[f32; WEIGHTS],
    reliable: bool,
) -> Equalized
    ensures { Leaves wr wi (λ w after. Reads xr xi (λ x. Reads dr di (λ dx.
        ◌≡◌ {A = Step} (record { equalized = result; weights = after }) (equalized_of w x dx reliable)))) }
{
    let s = tap_sums(wr, wi, xr, xi, dr, di);
    update(wr, wi, xr, xi, s, reliable);
    Equalized {
        value: s.value,
        timing: timing_error(s, reliable),
    }
}
