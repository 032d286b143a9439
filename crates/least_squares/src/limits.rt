// When an inverse begins anew, and as what.
ghost use Rattle.std.specs.Prelude.{◌≡◌};
ghost use Rattle.least_squares.specs.LeastSquares.{is_usable, is_bounded};
ghost use Rattle.least_squares.specs.Layout.{prior_at};

use numbers::compare::is_finite;

// A denominator that can be divided by.
pub fn is_usable(d: f32) -> bool
    ensures { result ≡ is_usable d }
{
    (d > 0.000001) & is_finite(d)
}

// A trace that has not run away.
pub fn is_bounded(trace: f32) -> bool
    ensures { result ≡ is_bounded trace }
{
    is_finite(trace) & (trace < 10000.0)
}

// The real part of the number e of an inverse that begins anew: 4 for each tap, 0.01 for each drift.
pub fn prior_of(e: usize) -> f32
    ensures { result ≡ prior_at e }
{
    if 0 < e % 9 {
        0.0
    } else if e < 36 {
        4.0
    } else {
        0.01
    }
}
