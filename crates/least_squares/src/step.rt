// How a tap, or its drift, is moved.
ghost use Rattle.std.specs.Prelude.{◌≡◌, cond};
ghost use Rattle.least_squares.specs.LeastSquares.{moved_tap};

use complex::{Complex32, added, multiplied};

// One of two numbers.
fn chosen(first: bool, x: f32, y: f32) -> f32
    ensures { result ≡ cond first x y }
{
    if first { x } else { y }
}

// By gain times error, where the denominator could be divided by. The sum is made in any case and taken or
// left part by part: lanes side by side then do the same.
pub fn moved(tap: Complex32, gain: Complex32, error: Complex32, usable: bool) -> Complex32
    ensures { result ≡ moved_tap tap gain error usable }
{
    let z = added(tap, multiplied(gain, error));
    Complex32 {
        real: chosen(usable, z.real, tap.real),
        imaginary: chosen(usable, z.imaginary, tap.imaginary),
    }
}
