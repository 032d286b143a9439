// How the states' taps follow what was received: each state goes on from its parent's taps, moved by
// LMS steps, so that its prediction comes nearer to the input.
#![tactic(auto)]

ghost use Rattle.std.specs.Prelude.{◌≡◌, ◌+◌, ◌*◌, ◌/◌, ◌%◌, ◌<◌};
ghost use Rattle.laws.specs.Places.{upto};
ghost use Rattle.lms_tracker.specs.Layout.{scaled_column, limit_column, limited_at};
ghost use Rattle.complex.specs.Lends.{Reads, Leaves};
ghost use Rattle.channels.specs.Channels.{laid_out, Parents};
ghost use Rattle.lms_tracker.specs.Tracker.{moved_of, learnt_of, norm_of, followed_of, learnt_at, inherited_at};

use channels::channel::{Taps, put_taps, taps_at};
use channels::symbols::symbol;
use channels::{CHANNELS, STATES};
use complex::{Complex32, power, subtracted};
use roots::sqrt;

// The steps by which the main tap, the first after it and the two later ones move. Larger steps
// follow faster and are noisier: the later taps have little to follow.
const MAIN_STEP: f32 = 0.12;

const FIRST_STEP: f32 = 0.08;

const LATER_STEP: f32 = 0.02;

// The most power that a state's taps may have, and the size of such taps.
const MOST_POWER: f32 = 16.0;

const MOST_SIZE: f32 = 4.0;

// A tap moved by step x error x the symbol's conjugate.
fn moved(tap: Complex32, step: f32, error: Complex32, s: Complex32) -> Complex32
    ensures { result ≡ moved_of tap step error s }
{
    Complex32 {
        real: tap.real + step * (error.real * s.real + error.imaginary * s.imaginary),
        imaginary: tap.imaginary + step * (error.imaginary * s.real - error.real * s.imaginary),
    }
}

// A prior's taps moved by the error, with the newest symbol and the prior's three.
fn learnt(t: Taps, error: Complex32, newest: u32, prior: u32) -> Taps
    requires newest_of_four { newest < 4 }
    requires prior_of_64 { prior < 64 }
    ensures { result ≡ learnt_of t error newest prior }
{
    Taps {
        main: moved(t.main, MAIN_STEP, error, symbol(newest)),
        one: moved(t.one, FIRST_STEP, error, symbol(prior % 4)),
        two: moved(t.two, LATER_STEP, error, symbol(prior / 4 % 4)),
        three: moved(t.three, LATER_STEP, error, symbol(prior / 16)),
    }
}

// The taps' power: the sum of the squares of their sizes.
fn norm_of(t: Taps) -> f32
    ensures { result ≡ norm_of t }
{
    0.0 + power(t.main) + power(t.one) + power(t.two) + power(t.three)
}

// Each state's taps are its parent's, moved by its error and its symbols; and their power.
fn learn(
    old_real: &[f32; CHANNELS],
    old_imaginary: &[f32; CHANNELS],
    parents: &[u8; STATES],
    prediction_real: &[f32; STATES],
    prediction_imaginary: &[f32; STATES],
    input: Complex32,
    real: &mut [f32; CHANNELS],
    imaginary: &mut [f32; CHANNELS],
    norms: &mut [f32; STATES],
)
    requires { Parents parents.now }
    ensures { Reads old_real old_imaginary (λ old. Reads prediction_real prediction_imaginary (λ predictions.
        (real.new ≡ (laid_out (learnt_at old parents.now predictions input)).real)
        × (imaginary.new ≡ (laid_out (learnt_at old parents.now predictions input)).imaginary)
        × (norms.new ≡ upto (λ s. norm_of (learnt_at old parents.now predictions input s)) 64))) }
{
    for (s, &prior) in parents.iter().enumerate() {
        let prediction = Complex32 {
            real: prediction_real[s],
            imaginary: prediction_imaginary[s],
        };
        let t = learnt(
            taps_at(old_real, old_imaginary, prior as usize),
            subtracted(input, prediction),
            (s % 4) as u32,
            prior as u32,
        );
        put_taps(real, imaginary, s, t);
        norms[s] = norm_of(t);
    }
}

// One state's part of a plane, times the gain.
fn scale(plane: &mut [f32; CHANNELS], state: usize, gain: f32)
    requires { state < 64 }
    ensures { plane.new ≡ scaled_column gain state plane.old }
{
    plane[state] = plane[state] * gain;
    plane[state + 64] = plane[state + 64] * gain;
    plane[state + 128] = plane[state + 128] * gain;
    plane[state + 192] = plane[state + 192] * gain;
}

// One state's taps, brought back to a power of 16 where theirs is above it.
fn limit_taps(real: &mut [f32; CHANNELS], imaginary: &mut [f32; CHANNELS], state: usize, norm: f32)
    requires { state < 64 }
    ensures real_after { real.new ≡ limit_column norm state real.old }
    ensures imaginary_after { imaginary.new ≡ limit_column norm state imaginary.old }
{
    if norm > MOST_POWER {
        let gain = MOST_SIZE / sqrt(norm);
        scale(real, state, gain);
        scale(imaginary, state, gain);
    }
}

// The taps of every state, each limited by its own power.
fn limit(real: &mut [f32; CHANNELS], imaginary: &mut [f32; CHANNELS], norms: &[f32; STATES])
    ensures real_after { real.new ≡ upto (limited_at norms.now real.old) 256 }
    ensures imaginary_after { imaginary.new ≡ upto (limited_at norms.now imaginary.old) 256 }
{
    for (s, &norm) in norms.iter().enumerate() {
        limit_taps(real, imaginary, s, norm);
    }
}

// Each state's taps are its parent's.
fn inherit(
    old_real: &[f32; CHANNELS],
    old_imaginary: &[f32; CHANNELS],
    parents: &[u8; STATES],
    real: &mut [f32; CHANNELS],
    imaginary: &mut [f32; CHANNELS],
)
    requires { Parents parents.now }
    ensures { Reads old_real old_imaginary (λ old.
        (real.new ≡ (laid_out (inherited_at old parents.now)).real)
        × (imaginary.new ≡ (laid_out (inherited_at old parents.now)).imaginary)) }
{
    for (s, &parent) in parents.iter().enumerate() {
        let t = taps_at(old_real, old_imaginary, parent as usize);
        put_taps(real, imaginary, s, t);
    }
}

// One step of the tracker: the channels after the step, from those before, each state's parent and
// prediction, and the input. An unreliable input teaches nothing.
pub fn follow(
    real: &mut [f32; CHANNELS],
    imaginary: &mut [f32; CHANNELS],
    parents: &[u8; STATES],
    prediction_real: &[f32; STATES],
    prediction_imaginary: &[f32; STATES],
    input: Complex32,
    reliable: bool,
)
    requires { Parents parents.now }
    ensures { Leaves real imaginary (λ before after. Reads prediction_real prediction_imaginary (λ predictions.
        after ≡ followed_of before parents.now predictions input reliable)) }
{
    let old_real = *real;
    let old_imaginary = *imaginary;
    if reliable {
        let mut norms = [0.0; STATES];
        learn(
            &old_real,
            &old_imaginary,
            parents,
            prediction_real,
            prediction_imaginary,
            input,
            real,
            imaginary,
            &mut norms,
        );
        limit(real, imaginary, &norms);
    } else {
        inherit(&old_real, &old_imaginary, parents, real, imaginary);
    }
}
