// The low-pass filter's taps, arm after arm, in the lent table.
ghost use Rattle.std.specs.Prelude.{◌≡◌, ◌+◌, ◌*◌, ◌<◌, ◌≤◌, length};
ghost use Rattle.resampler.specs.Design.{wave_of, raw_tap_of, written_of};
ghost use Rattle.resampler.specs.Loops.{tap_place_of, Raw, raw_from, divided_of};

use numbers::TURN;
use numbers::narrow::{narrow, widen};
use routines::circle::{cosine, sine};

// The places of a table that has room for every rate: 32 arms of at most 576 taps.
pub const TABLE: usize = 18432;

// The sine over its distance x from the middle; the limit in the middle itself.
fn wave(omega: f64, x: f64) -> f64
    ensures { result ≡ wave_of omega x }
{
    if x == 0.0 { omega } else { sine(omega * x) / x }
}

// Tap i of those from 0 to `last`, before the division by their sum: the wave under a Hamming window.
// `omega` is the cutoff in radians a tap.
fn raw_tap(omega: f64, last: usize, i: usize) -> f32
    ensures { result ≡ raw_tap_of omega last i }
{
    let place = std::num::nearest_u64_to_f64(i as u64);
    let end = std::num::nearest_u64_to_f64(last as u64);
    let window = 0.54 - 0.46 * cosine(TURN * place / end);
    narrow(wave(omega, place - end / 2.0) * window)
}

// Where tap i stands: in arm i % 32, from its end.
fn tap_place(arm: usize, i: usize) -> usize
    requires i_bound { i < 32 * arm }
    requires arm_bound { arm ≤ 576 }
    ensures same { result ≡ tap_place_of arm i }
    ensures inside { result < 32 * arm }
{
    i % 32 * arm + (arm - 1 - i / 32)
}

// Writes the first 32 c raw taps, and gives the sum of all 32 c + 1.
fn write_raw(omega: f64, arm: usize, table: &mut [f32]) -> f64
    requires arm_bound { arm ≤ 576 }
    requires arm_in_bounds { 32 * arm ≤ length table.old }
    ensures { ◌≡◌ {A = Raw} (record { sum = result; table = table.new }) (raw_from omega arm table.old) }
{
    let last = 32 * arm;
    let mut sum = 0.0;
    for i in 0..last {
        let tap = raw_tap(omega, last, i);
        let place = tap_place(arm, i);
        table[place] = tap;
        sum = sum + widen(tap);
    }
    sum + widen(raw_tap(omega, last, last))
}

// Divides the first places by the sum, and multiplies them by 32.
fn divide(sum: f32, count: usize, table: &mut [f32])
    requires { count ≤ length table.old }
    ensures { table.new ≡ divided_of sum count table.old }
{
    for i in 0..count {
        table[i] = table[i] / sum * 32.0;
    }
}

// Designs the filter for values that come at `rate` a second, 32 arms of `arm` taps with a cutoff of 4,200
// hertz, and writes the first 32 `arm` places of the table.
pub fn write_table(arm: usize, rate: f64, table: &mut [f32])
    requires le_arm { 1 ≤ arm }
    requires arm_bound { arm ≤ 576 }
    requires arm_in_bounds { 32 * arm ≤ length table.old }
    ensures { table.new ≡ written_of arm rate table.old }
{
    let omega = TURN * 4200.0 / (32.0 * rate);
    let sum = write_raw(omega, arm, &mut *table);
    divide(narrow(sum), 32 * arm, table);
}
