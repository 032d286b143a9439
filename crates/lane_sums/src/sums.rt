// What the four symbols of each lane say of its inverse.
ghost use Rattle.std.specs.Prelude.{◌≡◌, ◌+◌, ◌<◌};
ghost use Rattle.laws.specs.Places.{upto};
ghost use Rattle.complex.specs.Complex.{product_of, conjugate_product_of};
ghost use Rattle.least_squares.specs.Lanes.{pair_at, lanes_of, inverse_in, row_in, four_in, real_in};
ghost use Rattle.least_squares.specs.LeastSquares.{four_sum, projected_of, crossed_of, denominator_of, gain_of};
ghost use Rattle.lane_sums.specs.Layout.{projected_at, crossed_at, denominator_at, divided_at};

use complex::Complex32;
use least_squares::{EIGHTS, FOURS, INVERSES, LANES};

// A number of the inverse times the conjugate of a symbol.
fn projection(w: &[f32; INVERSES], u: &[f32; FOURS], at: usize, l: usize) -> Complex32
    requires at_of_half { at < 1024 }
    requires l_of_half { l < 64 }
    ensures { result ≡ conjugate_product_of (pair_at 1024 w.now at) (pair_at 64 u.now l) }
{
    Complex32 {
        real: w[at] * u[l] + w[at + 1024] * u[l + 64],
        imaginary: w[at + 1024] * u[l] - w[at] * u[l + 64],
    }
}

// A symbol times a number of the inverse.
fn crossing(w: &[f32; INVERSES], u: &[f32; FOURS], at: usize, l: usize) -> Complex32
    requires at_of_half { at < 1024 }
    requires l_of_half { l < 64 }
    ensures { result ≡ product_of (pair_at 64 u.now l) (pair_at 1024 w.now at) }
{
    Complex32 {
        real: u[l] * w[at] - u[l + 64] * w[at + 1024],
        imaginary: u[l] * w[at + 1024] + u[l + 64] * w[at],
    }
}

// Four numbers added to zero in turn.
fn four_sum(a: Complex32, b: Complex32, c: Complex32, d: Complex32) -> Complex32
    ensures { result ≡ four_sum a b c d }
{
    Complex32 {
        real: 0.0 + a.real + b.real + c.real + d.real,
        imaginary: 0.0 + a.imaginary + b.imaginary + c.imaginary + d.imaginary,
    }
}

// The first four numbers of a row of the inverse, from a place on, times the symbols' conjugates.
fn projected(w: &[f32; INVERSES], u: &[f32; FOURS], at: usize, l: usize) -> Complex32
    requires four_of_row { at + 48 < 1024 }
    requires l_of_lanes { l < 16 }
    ensures { result ≡ projected_at w.now u.now at l }
{
    four_sum(
        projection(w, u, at, l),
        projection(w, u, at + 16, l + 16),
        projection(w, u, at + 32, l + 32),
        projection(w, u, at + 48, l + 48),
    )
}

// Of each lane: the first four columns of its inverse times its symbols' conjugates.
pub fn project(w: &[f32; INVERSES], u: &[f32; FOURS], v: &mut [f32; EIGHTS])
    ensures { v.new ≡ lanes_of 128 (λ l. projected_of (inverse_in w.now l) (four_in u.now l)) }
{
    for i in 0..8 {
        for l in 0..16 {
            let z = projected(w, u, 128 * i + l, l);
            v[16 * i + l] = z.real;
            v[16 * i + l + 128] = z.imaginary;
        }
    }
}

// The symbols times the first four numbers of a column, from a place on.
fn crossed(w: &[f32; INVERSES], u: &[f32; FOURS], at: usize, l: usize) -> Complex32
    requires four_of_column { at + 384 < 1024 }
    requires l_of_lanes { l < 16 }
    ensures { result ≡ crossed_at w.now u.now at l }
{
    four_sum(
        crossing(w, u, at, l),
        crossing(w, u, at + 128, l + 16),
        crossing(w, u, at + 256, l + 32),
        crossing(w, u, at + 384, l + 48),
    )
}

// Of each lane: its symbols times the first four rows of its inverse.
pub fn cross(w: &[f32; INVERSES], u: &[f32; FOURS], row: &mut [f32; EIGHTS])
    ensures { row.new ≡ lanes_of 128 (λ l. crossed_of (inverse_in w.now l) (four_in u.now l)) }
{
    for j in 0..8 {
        for l in 0..16 {
            let z = crossed(w, u, 16 * j + l, l);
            row[16 * j + l] = z.real;
            row[16 * j + l + 128] = z.imaginary;
        }
    }
}

// The real part of a symbol times what the symbols project.
fn weight(u: &[f32; FOURS], v: &[f32; EIGHTS], l: usize) -> f32
    requires { l < 64 }
    ensures { result ≡ (product_of (pair_at 64 u.now l) (pair_at 128 v.now l)).real }
{
    u[l] * v[l] - u[l + 64] * v[l + 128]
}

fn denominator(u: &[f32; FOURS], v: &[f32; EIGHTS], l: usize) -> f32
    requires { l < 16 }
    ensures { result ≡ denominator_at u.now v.now l }
{
    0.8 + weight(u, v, l) + weight(u, v, l + 16) + weight(u, v, l + 32) + weight(u, v, l + 48)
}

// Of each lane: 0.8 and the real part of its symbols times what they project.
pub fn denominators(u: &[f32; FOURS], v: &[f32; EIGHTS], d: &mut [f32; LANES])
    ensures { d.new ≡ upto (λ l. denominator_of (four_in u.now l) (row_in v.now l)) 16 }
{
    for l in 0..16 {
        d[l] = denominator(u, v, l);
    }
}

fn divided(v: &[f32; EIGHTS], d: &[f32; LANES], at: usize, l: usize) -> Complex32
    requires at_of_half { at < 128 }
    requires l_of_lanes { l < 16 }
    ensures { result ≡ divided_at v.now d.now at l }
{
    Complex32 {
        real: v[at] / d[l],
        imaginary: v[at + 128] / d[l],
    }
}

// Of each lane: what its symbols project, over its denominator.
pub fn divide(v: &[f32; EIGHTS], d: &[f32; LANES], gain: &mut [f32; EIGHTS])
    ensures { gain.new ≡ lanes_of 128 (λ l. gain_of (row_in v.now l) (real_in d.now l)) }
{
    for i in 0..8 {
        for l in 0..16 {
            let z = divided(v, d, 16 * i + l, l);
            gain[16 * i + l] = z.real;
            gain[16 * i + l + 128] = z.imaginary;
        }
    }
}
