// The gain of a step, its denominator, and the row that the inverse is reduced by.
ghost use Rattle.std.specs.Prelude.{◌≡◌};
ghost use Rattle.laws.specs.Places.{upto};
ghost use Rattle.least_squares.specs.Lanes.{lanes_of, inverse_in, four_in};
ghost use Rattle.least_squares.specs.LeastSquares.{weight_of, crossed_of, gain_for};

use super::sums::{cross, denominators, divide, project};
use least_squares::{EIGHTS, FOURS, INVERSES, LANES};

// Of each lane, from its inverse and its symbols.
pub fn weigh(
    w: &[f32; INVERSES],
    u: &[f32; FOURS],
    gain: &mut [f32; EIGHTS],
    row: &mut [f32; EIGHTS],
    d: &mut [f32; LANES],
)
    ensures gain_after { gain.new ≡ lanes_of 128 (λ l. gain_for (inverse_in w.now l) (four_in u.now l)) }
    ensures row_after { row.new ≡ lanes_of 128 (λ l. crossed_of (inverse_in w.now l) (four_in u.now l)) }
    ensures d_after { d.new ≡ upto (λ l. weight_of (inverse_in w.now l) (four_in u.now l)) 16 }
{
    let mut v = [0.0; EIGHTS];
    project(w, u, &mut v);
    denominators(u, &v, d);
    divide(&v, d, gain);
    cross(w, u, row);
}
