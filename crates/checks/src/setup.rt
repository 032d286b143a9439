// The checks of a setup: its rate and its offset.
ghost use Rattle.std.specs.Prelude.{◌≡◌};
ghost use Rattle.checks.specs.Checks.{rate_refused, offset_refused};

use numbers::compare::{abs, is_finite};

// Not finite, below 9,600 or above 20,000,000.
pub fn rate_is_refused(rate: f64) -> bool
    ensures { result ≡ rate_refused rate }
{
    !is_finite(rate) | ((rate < 9600.0) | (rate > 20000000.0))
}

// Not finite, or so far out that the channel would reach past half the rate.
pub fn offset_is_refused(rate: f64, offset: f64) -> bool
    ensures { result ≡ offset_refused rate offset }
{
    !is_finite(offset) | (abs(offset) + 4200.0 >= rate / 2.0)
}
