// The four taps of one state, read from the planes and written there.
ghost use Rattle.std.specs.Prelude.{◌≡◌, ◌<◌};
ghost use Rattle.channels.specs.Layout.{put_of};
ghost use Rattle.complex.specs.Lends.{Reads};
ghost use Rattle.channels.specs.Channels.{taps_of};

use super::CHANNELS;
use complex::Complex32;

// The taps of one state: for the newest symbol and for the three before it.
#[derive(Clone, Copy)]
pub struct Taps {
    pub main: Complex32,
    pub one: Complex32,
    pub two: Complex32,
    pub three: Complex32,
}

// The taps of one state, read from the two planes.
pub fn taps_at(real: &[f32; CHANNELS], imaginary: &[f32; CHANNELS], state: usize) -> Taps
    requires { state < 64 }
    ensures { Reads real imaginary (λ channels. result ≡ taps_of channels state) }
{
    Taps {
        main: Complex32 {
            real: real[state],
            imaginary: imaginary[state],
        },
        one: Complex32 {
            real: real[state + 64],
            imaginary: imaginary[state + 64],
        },
        two: Complex32 {
            real: real[state + 128],
            imaginary: imaginary[state + 128],
        },
        three: Complex32 {
            real: real[state + 192],
            imaginary: imaginary[state + 192],
        },
    }
}

// One part of a state's taps, put in its four places of a plane.
fn put(plane: &mut [f32; CHANNELS], state: usize, main: f32, one: f32, two: f32, three: f32)
    requires { state < 64 }
    ensures { plane.new ≡ put_of plane.old state main one two three }
{
    plane[state] = main;
    plane[state + 64] = one;
    plane[state + 128] = two;
    plane[state + 192] = three;
}

// The taps of one state, put in their places of both planes.
pub fn put_taps(real: &mut [f32; CHANNELS], imaginary: &mut [f32; CHANNELS], state: usize, t: Taps)
    requires { state < 64 }
    ensures real_after { real.new ≡ put_of real.old state t.main.real t.one.real t.two.real t.three.real }
    ensures imaginary_after { imaginary.new ≡ put_of imaginary.old state t.main.imaginary t.one.imaginary t.two.imaginary t.three.imaginary }
{
    put(
        real,
        state,
        t.main.real,
        t.one.real,
        t.two.real,
        t.three.real,
    );
    put(
        imaginary,
        state,
        t.main.imaginary,
        t.one.imaginary,
        t.two.imaginary,
        t.three.imaginary,
    );
}
