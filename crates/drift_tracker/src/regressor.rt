// What each lane's step is made with: its four symbols, and the error of its prediction.
ghost use Rattle.std.specs.Prelude.{◌≡◌, ◌+◌, ◌*◌, ◌<◌};
ghost use Rattle.complex.specs.Lends.{Reads};
ghost use Rattle.complex.specs.Complex.{difference_of};
ghost use Rattle.complex.specs.Planes.{point_at};
ghost use Rattle.channels.specs.Channels.{Parents};
ghost use Rattle.least_squares.specs.Lanes.{pairs_of, lanes_of};
ghost use Rattle.least_squares.specs.LeastSquares.{number_of};
ghost use Rattle.drift_tracker.specs.Drift.{parent_of, symbols_of};

use super::lanes::parent;
use channels::STATES;
use channels::symbols::symbol;
use complex::{Complex32, subtracted};
use least_squares::{FOURS, PAIRS};

// The symbol t of a state and its parent p: the newest is the state's, the others are the parent's.
fn symbol_of(s: usize, p: usize, t: usize) -> Complex32
    requires s_of_64 { s < 64 }
    requires p_of_64 { p < 64 }
    requires t_of_four { t < 4 }
    ensures { result ≡ number_of (symbols_of s p) t }
{
    if t == 0 {
        return symbol((s % 4) as u32);
    }
    if t == 1 {
        return symbol((p % 4) as u32);
    }
    if t == 2 {
        return symbol((p / 4 % 4) as u32);
    }
    symbol((p / 16) as u32)
}

// The symbols of the sixteen states from 16 g on.
pub fn regress(parents: &[u8; STATES], g: usize, u: &mut [f32; FOURS])
    requires g_of_four { g < 4 }
    requires states { Parents parents.now }
    ensures { u.new ≡ lanes_of 64 (λ l. symbols_of (16 * g + l) (parent_of parents.now (16 * g + l))) }
{
    for t in 0..4 {
        for l in 0..16 {
            let p = parent(parents, 16 * g + l);
            let z = symbol_of(16 * g + l, p, t);
            u[16 * t + l] = z.real;
            u[16 * t + l + 64] = z.imaginary;
        }
    }
}

// The input less what each of the sixteen states predicted.
pub fn miss(
    input: Complex32,
    prediction_real: &[f32; STATES],
    prediction_imaginary: &[f32; STATES],
    g: usize,
    error: &mut [f32; PAIRS],
)
    requires { g < 4 }
    ensures { Reads prediction_real prediction_imaginary (λ predictions.
        error.new ≡ pairs_of 16 (λ l. difference_of input (point_at predictions (16 * g + l)))) }
{
    for l in 0..16 {
        let prediction = Complex32 {
            real: prediction_real[16 * g + l],
            imaginary: prediction_imaginary[16 * g + l],
        };
        let z = subtracted(input, prediction);
        error[l] = z.real;
        error[l + 16] = z.imaginary;
    }
}
