// The sums of four neighbouring windows side by side, each over its taps in order from 0.
ghost use Rattle.std.specs.Prelude.{◌≡◌, ◌+◌, ◌<◌, ◌≤◌};
ghost use Rattle.filter.specs.Fast.{summed_of, tapped_of, tapped_four, no_four, four_of, woven};

use super::{ArmTaps, Samples};
use complex::Complex32;

// The running sums of one window.
#[derive(Clone, Copy)]
pub struct Sums {
    pub value: Complex32,
    pub derivative: Complex32,
}

// Those of four neighbours.
#[derive(Clone, Copy)]
pub struct Four {
    pub first: Sums,
    pub second: Sums,
    pub third: Sums,
    pub fourth: Sums,
}

// A sum with one product more.
fn summed(sum: Complex32, real: f32, imaginary: f32, tap: f32) -> Complex32
    ensures { result ≡ summed_of sum real imaginary tap }
{
    Complex32 {
        real: sum.real + real * tap,
        imaginary: sum.imaginary + imaginary * tap,
    }
}

// A window's sums with one tap more.
fn tapped(s: Sums, real: f32, imaginary: f32, tap: f32, derivative_tap: f32) -> Sums
    ensures { result ≡ tapped_of s real imaginary tap derivative_tap }
{
    let value = summed(s.value, real, imaginary, tap);
    let derivative = summed(s.derivative, real, imaginary, derivative_tap);
    Sums { value, derivative }
}

// The four windows' sums with one tap more, on the samples at, at + 1, at + 2, at + 3.
fn tapped_four(s: Four, samples: &Samples, at: usize, tap: f32, derivative_tap: f32) -> Four
    requires { at + 3 < 37 }
    ensures { result ≡ tapped_four s samples.now.real samples.now.imaginary at tap derivative_tap }
{
    let first = tapped(
        s.first,
        samples.real[at],
        samples.imaginary[at],
        tap,
        derivative_tap,
    );
    let second = tapped(
        s.second,
        samples.real[at + 1],
        samples.imaginary[at + 1],
        tap,
        derivative_tap,
    );
    let third = tapped(
        s.third,
        samples.real[at + 2],
        samples.imaginary[at + 2],
        tap,
        derivative_tap,
    );
    let fourth = tapped(
        s.fourth,
        samples.real[at + 3],
        samples.imaginary[at + 3],
        tap,
        derivative_tap,
    );
    Four {
        first,
        second,
        third,
        fourth,
    }
}

// The sums before the first tap.
fn no_sums() -> Four
    ensures { result ≡ no_four }
{
    let zero = complex::zero();
    let none = Sums {
        value: zero,
        derivative: zero,
    };
    Four {
        first: none,
        second: none,
        third: none,
        fourth: none,
    }
}

// The sums of the windows k, k + 1, k + 2, k + 3.
pub fn four_sums(even: &Samples, odd: &Samples, k: usize, arm: &ArmTaps) -> Four
    requires { k ≤ 17 }
    ensures { result ≡ four_of (woven even.now.real odd.now.real)
        (woven even.now.imaginary odd.now.imaginary)
        arm.now.taps arm.now.derivatives k 33 }
{
    let mut s = no_sums();
    for j in 0..16 {
        s = tapped_four(s, even, k + j, arm.taps[2 * j], arm.derivatives[2 * j]);
        s = tapped_four(
            s,
            odd,
            k + j,
            arm.taps[2 * j + 1],
            arm.derivatives[2 * j + 1],
        );
    }
    tapped_four(s, even, k + 16, arm.taps[32], arm.derivatives[32])
}
