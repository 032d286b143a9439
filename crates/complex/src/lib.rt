// `Complex32`, a pair of floats by value, and the few operations that several modules share. Each
// part is one expression of once-rounded f32 operations, in the order written in specs/.
#![tactic(auto)]

ghost use Rattle.std.specs.Prelude.{◌≡◌};
ghost use Rattle.complex.specs.Complex.{zero_pair, sum_of, difference_of, scaled_of, product_of, conjugate_product_of, power_of, both_finite, narrowed_of};

use numbers::compare;
use numbers::narrow::narrow;

#[derive(Clone, Copy)]
pub struct Complex32 {
    pub real: f32,
    pub imaginary: f32,
}

// The same before it is narrowed.
#[derive(Clone, Copy)]
pub struct Complex64 {
    pub real: f64,
    pub imaginary: f64,
}

// Complex values, real parts and imaginary parts apart.
#[derive(Clone, Copy)]
pub struct Planes<const N: usize> {
    pub real: [f32; N],
    pub imaginary: [f32; N],
}

pub fn zero() -> Complex32
    ensures { result ≡ zero_pair }
{
    Complex32 {
        real: 0.0,
        imaginary: 0.0,
    }
}

pub fn added(a: Complex32, b: Complex32) -> Complex32
    ensures { result ≡ sum_of a b }
{
    Complex32 {
        real: a.real + b.real,
        imaginary: a.imaginary + b.imaginary,
    }
}

pub fn subtracted(a: Complex32, b: Complex32) -> Complex32
    ensures { result ≡ difference_of a b }
{
    Complex32 {
        real: a.real - b.real,
        imaginary: a.imaginary - b.imaginary,
    }
}

pub fn scaled(z: Complex32, k: f32) -> Complex32
    ensures { result ≡ scaled_of z k }
{
    Complex32 {
        real: z.real * k,
        imaginary: z.imaginary * k,
    }
}

// a times b.
pub fn multiplied(a: Complex32, b: Complex32) -> Complex32
    ensures { result ≡ product_of a b }
{
    Complex32 {
        real: a.real * b.real - a.imaginary * b.imaginary,
        imaginary: a.real * b.imaginary + a.imaginary * b.real,
    }
}

// a times the conjugate of b.
pub fn multiplied_conjugate(a: Complex32, b: Complex32) -> Complex32
    ensures { result ≡ conjugate_product_of a b }
{
    Complex32 {
        real: a.real * b.real + a.imaginary * b.imaginary,
        imaginary: a.imaginary * b.real - a.real * b.imaginary,
    }
}

// The square of the size.
pub fn power(z: Complex32) -> f32
    ensures { result ≡ power_of z }
{
    z.real * z.real + z.imaginary * z.imaginary
}

pub fn is_finite(z: Complex32) -> bool
    ensures { result ≡ both_finite z }
{
    compare::is_finite(z.real) & compare::is_finite(z.imaginary)
}

// Each part rounded once.
pub fn narrowed(z: Complex64) -> Complex32
    ensures { result ≡ narrowed_of z }
{
    Complex32 {
        real: narrow(z.real),
        imaginary: narrow(z.imaginary),
    }
}
