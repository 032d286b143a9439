// The matched filter and its derivative: 21 windows, two samples apart, of 33 taps each. Every sum
// runs over its taps in order from 0; four windows go side by side, on the samples at even and at
// odd places laid out apart, so that their sums stay in registers.
#![tactic(auto)]

ghost use Rattle.std.specs.Prelude.{◌≡◌, ◌<◌, ◌≤◌};
ghost use Rattle.filter.specs.Filter.{windows_with, matched_of};
ghost use Rattle.filter.specs.Lends.{Leaves};
ghost use Rattle.filter.specs.Fast.{woven, put_of, group_of};

mod gather;
mod sums;

use gather::{arm_taps, every_second};
use sums::four_sums;

// The taps of the matched filter, or of its derivative: tap by tap the 32 arms in turn, and a last tap
// that arm 0 has alone.
pub const TAPS: usize = 1025;

// The taps of one arm.
const ARM: usize = 33;

// The places of the ring of samples.
pub const RING: usize = 256;

// The windows, two samples apart.
pub const WINDOWS: usize = 21;

// The samples at even places among the 74 that the windows reach, or at odd ones.
const HALF: usize = 37;

// Samples at even places, or at odd ones, part by part.
#[derive(Drop)]
struct Samples {
    real: [f32; HALF],
    imaginary: [f32; HALF],
}

// The taps of one arm, and its derivatives.
#[derive(Drop)]
struct ArmTaps {
    taps: [f32; ARM],
    derivatives: [f32; ARM],
}

// Four stores from place k on.
fn put(out: &mut [f32; WINDOWS], k: usize, a: f32, b: f32, c: f32, d: f32)
    requires { k ≤ 17 }
    ensures { out.new ≡ put_of out.old k a b c d }
{
    out[k] = a;
    out[k + 1] = b;
    out[k + 2] = c;
    out[k + 3] = d;
}

// The first window of each group of four; the last four begin at 17, so that three are made twice.
fn group(g: usize) -> usize
    requires { g < 6 }
    ensures is { result ≡ group_of g }
    ensures low { result ≤ 17 }
{
    if g < 5 { 4 * g } else { 17 }
}

// All windows, four at a time.
fn windows(
    even: &Samples,
    odd: &Samples,
    arm: &ArmTaps,
    value_real: &mut [f32; WINDOWS],
    value_imaginary: &mut [f32; WINDOWS],
    derivative_real: &mut [f32; WINDOWS],
    derivative_imaginary: &mut [f32; WINDOWS],
)
    ensures { Leaves value_real value_imaginary derivative_real derivative_imaginary (λ _ after. after ≡ windows_with
        (woven even.now.real odd.now.real)
        (woven even.now.imaginary odd.now.imaginary)
        arm.now.taps arm.now.derivatives) }
{
    for g in 0..6 {
        let k = group(g);
        let s = four_sums(even, odd, k, arm);
        put(
            value_real,
            k,
            s.first.value.real,
            s.second.value.real,
            s.third.value.real,
            s.fourth.value.real,
        );
        put(
            value_imaginary,
            k,
            s.first.value.imaginary,
            s.second.value.imaginary,
            s.third.value.imaginary,
            s.fourth.value.imaginary,
        );
        put(
            derivative_real,
            k,
            s.first.derivative.real,
            s.second.derivative.real,
            s.third.derivative.real,
            s.fourth.derivative.real,
        );
        put(
            derivative_imaginary,
            k,
            s.first.derivative.imaginary,
            s.second.derivative.imaginary,
            s.third.derivative.imaginary,
            s.fourth.derivative.imaginary,
        );
    }
}

// The windows that begin at the ring's places from, from + 2, .. from + 40, with the taps of one arm.
pub fn matched<'a>(
    taps: &'a [f32; TAPS],
    derivatives: &'a [f32; TAPS],
    ring_real: &'a [f32; RING],
    ring_imaginary: &'a [f32; RING],
    arm: usize,
    from: usize,
    value_real: &mut [f32; WINDOWS],
    value_imaginary: &mut [f32; WINDOWS],
    derivative_real: &mut [f32; WINDOWS],
    derivative_imaginary: &mut [f32; WINDOWS],
)
    requires arm_below { arm < 32 }
    requires from_below { from < 256 }
    ensures { Leaves value_real value_imaginary derivative_real derivative_imaginary (λ _ after. after ≡ matched_of
        taps.now derivatives.now ring_real.now ring_imaginary.now arm from) }
{
    let mut row = ArmTaps {
        taps: [0.0; ARM],
        derivatives: [0.0; ARM],
    };
    arm_taps(taps, arm, &mut row.taps);
    arm_taps(derivatives, arm, &mut row.derivatives);
    let mut even = Samples {
        real: [0.0; HALF],
        imaginary: [0.0; HALF],
    };
    let mut odd = Samples {
        real: [0.0; HALF],
        imaginary: [0.0; HALF],
    };
    every_second(ring_real, from, &mut even.real);
    every_second(ring_real, from + 1, &mut odd.real);
    every_second(ring_imaginary, from, &mut even.imaginary);
    every_second(ring_imaginary, from + 1, &mut odd.imaginary);
    windows(
        &even,
        &odd,
        &row,
        value_real,
        value_imaginary,
        derivative_real,
        derivative_imaginary,
    );
}
