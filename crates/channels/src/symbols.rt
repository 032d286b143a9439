// The four symbols, each of size 1: 0 to 3 lie at 45, 135, 225 and 315 degrees.
ghost use Rattle.std.specs.Prelude.{◌≡◌, ◌<◌};
ghost use Rattle.channels.specs.Channels.{real_of, imaginary_of, symbol_of};

use complex::Complex32;

// Each part of a symbol in size: 1 / sqrt(2).
const LEVEL: f32 = 0.70710677;

fn real(k: u32) -> f32
    requires { k < 4 }
    ensures { result ≡ real_of k }
{
    if (k + 1) % 4 < 2 { LEVEL } else { -LEVEL }
}

fn imaginary(k: u32) -> f32
    requires { k < 4 }
    ensures { result ≡ imaginary_of k }
{
    if k < 2 { LEVEL } else { -LEVEL }
}

pub fn symbol(k: u32) -> Complex32
    requires { k < 4 }
    ensures { result ≡ symbol_of k }
{
    Complex32 {
        real: real(k),
        imaginary: imaginary(k),
    }
}
