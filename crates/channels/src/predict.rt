// What a prior state's taps predict for a new symbol.
ghost use Rattle.std.specs.Prelude.{◌≡◌, ◌<◌, ◌/◌, ◌%◌};
ghost use Rattle.laws.specs.Places.{upto};
ghost use Rattle.channels.specs.Layout.{past_of, predicted_of};
ghost use Rattle.complex.specs.Lends.{Reads};
ghost use Rattle.channels.specs.Channels.{term_of};

use super::symbols::symbol;
use super::{CHANNELS, PAST_TERMS};
use complex::{Complex32, multiplied};

// The product of the tap at a place of the planes with the symbol k.
fn term(real: &[f32; CHANNELS], imaginary: &[f32; CHANNELS], at: usize, k: u32) -> Complex32
    requires at_of_plane { at < 256 }
    requires k_of_four { k < 4 }
    ensures { Reads real imaginary (λ channels. result ≡ term_of channels at k) }
{
    multiplied(
        Complex32 {
            real: real[at],
            imaginary: imaginary[at],
        },
        symbol(k),
    )
}

// The products of the three later taps with each prior's own symbols, made once a step: that of the
// prior p and the tap t at p + 64 (t - 1).
pub fn past_terms(
    real: &[f32; CHANNELS],
    imaginary: &[f32; CHANNELS],
    past_real: &mut [f32; PAST_TERMS],
    past_imaginary: &mut [f32; PAST_TERMS],
)
    ensures { Reads real imaginary (λ channels.
        (past_real.new ≡ upto (λ i. (past_of channels (i / 64) (i % 64)).real) 192)
        × (past_imaginary.new ≡ upto (λ i. (past_of channels (i / 64) (i % 64)).imaginary) 192)) }
{
    for p in 0..64 {
        let held = p as u32;
        let one = term(real, imaginary, p + 64, held % 4);
        let two = term(real, imaginary, p + 128, held / 4 % 4);
        let three = term(real, imaginary, p + 192, held / 16);
        past_real[p] = one.real;
        past_real[p + 64] = two.real;
        past_real[p + 128] = three.real;
        past_imaginary[p] = one.imaginary;
        past_imaginary[p + 64] = two.imaginary;
        past_imaginary[p + 128] = three.imaginary;
    }
}

// The sum of the four terms, from that of the newest symbol on.
pub fn predicted(
    real: &[f32; CHANNELS],
    imaginary: &[f32; CHANNELS],
    past_real: &[f32; PAST_TERMS],
    past_imaginary: &[f32; PAST_TERMS],
    newest: Complex32,
    p: usize,
) -> Complex32
    requires { p < 64 }
    ensures { Reads real imaginary (λ channels. Reads past_real past_imaginary (λ past.
        result ≡ predicted_of channels past newest p)) }
{
    Complex32 {
        real: 0.0
            + (real[p] * newest.real - imaginary[p] * newest.imaginary)
            + past_real[p]
            + past_real[p + 64]
            + past_real[p + 128],
        imaginary: 0.0
            + (real[p] * newest.imaginary + imaginary[p] * newest.real)
            + past_imaginary[p]
            + past_imaginary[p + 64]
            + past_imaginary[p + 128],
    }
}
