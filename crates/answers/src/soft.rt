// Soft records: the signs and the strength of a step's differential product.
ghost use Rattle.std.specs.Prelude.{◌≡◌, ◌<◌};
ghost use Rattle.answers.specs.Observed.{noise_after_of, size_of, eighth_turned_of, scale_of, recorded_of, record_of, byte_of, agreed_of, record_before};

use super::STEPS;
use complex::{Complex32, multiplied_conjugate};
use numbers::compare::{abs, clamp, is_finite, max, min};
use routines::hypotenuse::hypotenuse;
use whole::to_u8;

// The sign bits of a dibit's higher and lower bit, and their reliabilities.
#[derive(Clone, Copy)]
pub struct Soft {
    pub high_sign: bool,
    pub low_sign: bool,
    pub high_reliability: f32,
    pub low_reliability: f32,
}

// The records of 32 steps, of those that have one.
#[derive(Clone, Copy)]
pub struct Records {
    pub slots: [Option<Soft>; STEPS],
}

// The record of 31 steps before the step that is stored at `write`: the oldest of the ring.
pub fn oldest(records: Records, write: usize) -> Option<Soft>
    requires { write < 32 }
    ensures { result ≡ record_before records.slots write }
{
    let at = (write + 1) % 32;
    records.slots[at]
}

// The residual's power, smoothed; it normalizes the reliabilities.
pub fn noise_after(noise: f32, residual: f32, reliable: bool) -> f32
    ensures { result ≡ noise_after_of noise residual reliable }
{
    if reliable & is_finite(residual) {
        noise + 0.02 * (min(residual, 4.0) - noise)
    } else {
        noise
    }
}

fn size(z: Complex32) -> f32
    ensures { result ≡ size_of z }
{
    hypotenuse(z.real, z.imaginary)
}

// Turned by pi / 4: then the dibit's bits are the signs, the higher that of the imaginary part.
fn eighth_turned(z: Complex32) -> Complex32
    ensures { result ≡ eighth_turned_of z }
{
    Complex32 {
        real: 0.70710677 * (z.real - z.imaginary),
        imaginary: 0.70710677 * (z.real + z.imaginary),
    }
}

// One over the summed sizes and the noise: what it scales falls together in a fade.
fn scale(now: Complex32, before: Complex32, noise: f32) -> f32
    ensures { result ≡ scale_of now before noise }
{
    1.0 / ((size(now) + size(before)) * max(noise, 1e-4) + 1e-12)
}

fn recorded(now: Complex32, before: Complex32, noise: f32) -> Soft
    ensures { result ≡ recorded_of now before noise }
{
    let product = eighth_turned(multiplied_conjugate(now, before));
    let k = scale(now, before, noise);
    Soft {
        high_sign: product.imaginary < 0.0,
        low_sign: product.real < 0.0,
        high_reliability: abs(product.imaginary) * k,
        low_reliability: abs(product.real) * k,
    }
}

// A step's record: none where this observation or the one before is absent.
pub fn record(now: Option<Complex32>, before: Option<Complex32>, noise: f32) -> Option<Soft>
    ensures { result ≡ record_of now before noise }
{
    Some(recorded(now?, before?, noise))
}

// A reliability times 32 as a byte, cut at 0 and 255; a NaN gives 0.
fn byte(reliability: f32) -> u8
    ensures { result ≡ byte_of reliability }
{
    to_u8(clamp(reliability * 32.0, 0.0, 255.0))
}

// The byte where the record's sign is the decided bit, and 0 where it is not.
pub fn agreed(negative: bool, decided: bool, reliability: f32) -> u8
    ensures { result ≡ agreed_of negative decided reliability }
{
    if negative == decided {
        byte(reliability)
    } else {
        0
    }
}
