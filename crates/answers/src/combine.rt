// What is left of the input once the best survivor's delayed paths are taken off.
ghost use Rattle.std.specs.Prelude.{◌≡◌, ◌<◌};
ghost use Rattle.answers.specs.Observed.{cancelled_of, is_usable, divided_of, observed_of};

use channels::channel::Taps;
use channels::symbols::symbol;
use complex::{Complex32, is_finite, multiplied, multiplied_conjugate, power, subtracted};
use numbers::compare;

// The observation weighted by the main tap, so that its size follows the channel's power, and the
// same over that power: none where the signal was not reliable.
#[derive(Clone, Copy)]
pub struct Seen {
    pub combined: Option<Complex32>,
    pub equalized: Option<Complex32>,
}

// The input less the products of the later taps with the prior's symbols.
fn cancelled(input: Complex32, t: Taps, prior: u32) -> Complex32
    requires { prior < 64 }
    ensures { result ≡ cancelled_of input t prior }
{
    let a = subtracted(input, multiplied(t.one, symbol(prior % 4)));
    let b = subtracted(a, multiplied(t.two, symbol(prior / 4 % 4)));
    subtracted(b, multiplied(t.three, symbol(prior / 16)))
}

fn is_usable(reliable: bool, power: f32) -> bool
    ensures { result ≡ is_usable reliable power }
{
    reliable & compare::is_finite(power) & (power > 1e-6)
}

fn divided(z: Complex32, by: f32) -> Complex32
    ensures { result ≡ divided_of z by }
{
    Complex32 {
        real: z.real / by,
        imaginary: z.imaginary / by,
    }
}

// Nothing where the input is not reliable, or the main tap's power or the result is no use.
pub fn observed(input: Complex32, reliable: bool, t: Taps, prior: u32) -> Seen
    requires { prior < 64 }
    ensures { result ≡ observed_of input reliable t prior }
{
    let p = power(t.main);
    let v = multiplied_conjugate(cancelled(input, t, prior), t.main);
    if is_usable(reliable, p) & is_finite(v) {
        Seen {
            combined: Some(v),
            equalized: Some(divided(v, p)),
        }
    } else {
        Seen {
            combined: None,
            equalized: None,
        }
    }
}
