// One number of an inverse after a step.
ghost use Rattle.std.specs.Prelude.{◌≡◌, ◌+◌, ◌<◌};
ghost use Rattle.complex.specs.Complex.{difference_of, product_of};
ghost use Rattle.least_squares.specs.LeastSquares.{memory, over_of, conjugate_of};
ghost use Rattle.least_squares.specs.Layout.{settled_at};

use super::{EIGHTS, INVERSES};
use complex::Complex32;

// A number less gain times row, over 0.8 (1.25 times it would differ in the last bit).
fn reduced(p: Complex32, gain: Complex32, row: Complex32) -> Complex32
    ensures { result ≡ over_of (difference_of p (product_of gain row)) memory }
{
    Complex32 {
        real: (p.real - (gain.real * row.real - gain.imaginary * row.imaginary)) / 0.8,
        imaginary: (p.imaginary - (gain.real * row.imaginary + gain.imaginary * row.real)) / 0.8,
    }
}

// What stands at (i, j) after the step. The numbers at (i, j) and (j, i) of the lane l stand at a and b in
// the room, u is 16 i + l and v is 16 j + l.
pub fn settled(
    w: &[f32; INVERSES],
    gain: &[f32; EIGHTS],
    row: &[f32; EIGHTS],
    a: usize,
    b: usize,
    u: usize,
    v: usize,
) -> Complex32
    requires a_of_half { a < 1024 }
    requires b_of_half { b < 1024 }
    requires u_of_half { u < 128 }
    requires v_of_half { v < 128 }
    ensures { result ≡ settled_at w.now gain.now row.now a b u v }
{
    let x = reduced(
        Complex32 {
            real: w[a],
            imaginary: w[a + 1024],
        },
        Complex32 {
            real: gain[u],
            imaginary: gain[u + 128],
        },
        Complex32 {
            real: row[v],
            imaginary: row[v + 128],
        },
    );
    let y = reduced(
        Complex32 {
            real: w[b],
            imaginary: w[b + 1024],
        },
        Complex32 {
            real: gain[v],
            imaginary: gain[v + 128],
        },
        Complex32 {
            real: row[u],
            imaginary: row[u + 128],
        },
    );
    Complex32 {
        real: 0.5 * (x.real + y.real),
        imaginary: 0.5 * (x.imaginary - y.imaginary),
    }
}

// The same at (i, i), where both numbers are one: it stands at a in the room, and far is u + 128 (given, so that
// the compiler sees four lanes read side by side). The imaginary part becomes -0, or a NaN where it is not finite.
pub fn diagonal(
    w: &[f32; INVERSES],
    gain: &[f32; EIGHTS],
    row: &[f32; EIGHTS],
    a: usize,
    u: usize,
    far: usize,
) -> Complex32
    requires a_of_half { a < 1024 }
    requires u_of_half { u < 128 }
    requires far_of_u { far ≡ u + 128 }
    ensures { result ≡ conjugate_of (settled_at w.now gain.now row.now a a u u) }
{
    let z = reduced(
        Complex32 {
            real: w[a],
            imaginary: w[a + 1024],
        },
        Complex32 {
            real: gain[u],
            imaginary: gain[far],
        },
        Complex32 {
            real: row[u],
            imaginary: row[far],
        },
    );
    Complex32 {
        real: 0.5 * (z.real + z.real),
        imaginary: -(0.5 * (z.imaginary - z.imaginary)),
    }
}
