// The inverses of four lanes after a step: each number above the diagonal and its conjugate across it, and
// the diagonal, where both are one.
ghost use Rattle.std.specs.Prelude.{◌≡◌, ◌+◌, ◌*◌, ◌/◌, ◌%◌, ◌<◌, ◌≤◌};
ghost use Rattle.least_squares.specs.LeastSquares.{conjugate_of};
ghost use Rattle.settling.specs.Layout.{four_of, turned, pair_turn, quad_at, settled_number};

use complex::Complex32;
use least_squares::entry::{diagonal, settled};
use least_squares::{ALL, EIGHTS, INVERSES};

fn conjugated(z: Complex32) -> Complex32
    ensures { result ≡ conjugate_of z }
{
    Complex32 {
        real: z.real,
        imaginary: -z.imaginary,
    }
}

// Four numbers side by side, from a place on.
fn put_four(
    x: Complex32,
    y: Complex32,
    z: Complex32,
    w: Complex32,
    at: usize,
    next: &mut [f32; ALL],
)
    requires { at + 3 < 4096 }
    ensures { next.new ≡ four_of (four_of next.old at x.real y.real z.real w.real) (at + 4096) x.imaginary y.imaginary z.imaginary w.imaginary }
{
    next[at] = x.real;
    next[at + 1] = y.real;
    next[at + 2] = z.real;
    next[at + 3] = w.real;
    next[at + 4096] = x.imaginary;
    next[at + 4096 + 1] = y.imaginary;
    next[at + 4096 + 2] = z.imaginary;
    next[at + 4096 + 3] = w.imaginary;
}

// Four lanes from `from` on, at (i, j) and across. All is read before anything is written: the compiler then
// makes it one operation for the four.
fn settle_pair(
    w: &[f32; INVERSES],
    gain: &[f32; EIGHTS],
    row: &[f32; EIGHTS],
    i: usize,
    j: usize,
    from: usize,
    base: usize,
    next: &mut [f32; ALL],
)
    requires above { i < j }
    requires j_of_eight { j < 8 }
    requires from_of_quad { from ≡ 4 * (base / 256 % 4) }
    requires base_of_quad { base % 256 ≡ 0 }
    requires base_fits { base + 256 ≤ 4096 }
    ensures { next.new ≡ turned (pair_turn (base / 256)) (8 * i + j) (settled_number w.now gain.now row.now) next.old }
{
    let a = 128 * i + 16 * j + from;
    let b = 128 * j + 16 * i + from;
    let u = 16 * i + from;
    let v = 16 * j + from;
    let here = base + 32 * i + 4 * j;
    let over = base + 32 * j + 4 * i;
    let z0 = settled(w, gain, row, a, b, u, v);
    let z1 = settled(w, gain, row, a + 1, b + 1, u + 1, v + 1);
    let z2 = settled(w, gain, row, a + 2, b + 2, u + 2, v + 2);
    let z3 = settled(w, gain, row, a + 3, b + 3, u + 3, v + 3);
    put_four(z0, z1, z2, z3, here, next);
    put_four(
        conjugated(z0),
        conjugated(z1),
        conjugated(z2),
        conjugated(z3),
        over,
        next,
    );
}

// Four lanes at (i, i), one number each.
fn settle_diagonal(
    w: &[f32; INVERSES],
    gain: &[f32; EIGHTS],
    row: &[f32; EIGHTS],
    i: usize,
    from: usize,
    base: usize,
    next: &mut [f32; ALL],
)
    requires i_of_eight { i < 8 }
    requires from_of_quad { from ≡ 4 * (base / 256 % 4) }
    requires base_of_quad { base % 256 ≡ 0 }
    requires base_fits { base + 256 ≤ 4096 }
    ensures { next.new ≡ turned (pair_turn (base / 256)) (8 * i + i) (settled_number w.now gain.now row.now) next.old }
{
    let a = 144 * i + from;
    let u = 16 * i + from;
    let far = u + 128;
    let here = base + 36 * i;
    let z0 = diagonal(w, gain, row, a, u, far);
    let z1 = diagonal(w, gain, row, a + 1, u + 1, far + 1);
    let z2 = diagonal(w, gain, row, a + 2, u + 2, far + 2);
    let z3 = diagonal(w, gain, row, a + 3, u + 3, far + 3);
    put_four(z0, z1, z2, z3, here, next);
}

// Four lanes, all 64 numbers of each.
pub fn settle_quad(
    w: &[f32; INVERSES],
    gain: &[f32; EIGHTS],
    row: &[f32; EIGHTS],
    from: usize,
    base: usize,
    next: &mut [f32; ALL],
)
    requires from_of_quad { from ≡ 4 * (base / 256 % 4) }
    requires base_of_quad { base % 256 ≡ 0 }
    requires base_fits { base + 256 ≤ 4096 }
    ensures { next.new ≡ turned quad_at (base / 256) (settled_number w.now gain.now row.now) next.old }
{
    for i in 0..8 {
        settle_diagonal(w, gain, row, i, from, base, next);
        for j in i + 1..8 {
            settle_pair(w, gain, row, i, j, from, base, next);
        }
    }
}
