// What the sums run over: one arm's taps, and the ring's samples at even and at odd places apart.
ghost use Rattle.std.specs.Prelude.{◌≡◌, ◌<◌, ◌≤◌};
ghost use Rattle.filter.specs.Filter.{arm_tap, arm_taps_of};
ghost use Rattle.filter.specs.Fast.{every_second_of};

use super::{ARM, HALF, RING, TAPS};

// An arm's first tap: only arm 0 reaches the table's last place.
fn first_tap(table: &[f32; TAPS], arm: usize) -> f32
    requires { arm < 32 }
    ensures { result ≡ arm_tap table.now arm 0 }
{
    if arm == 0 { table[1024] } else { 0.0 }
}

// The taps of one arm, the table's last first; a place past the table is zero.
pub fn arm_taps(table: &[f32; TAPS], arm: usize, taps: &mut [f32; ARM])
    requires { arm < 32 }
    ensures { taps.new ≡ arm_taps_of table.now arm }
{
    taps[0] = first_tap(table, arm);
    for i in 1..ARM {
        taps[i] = table[arm + 32 * (32 - i)];
    }
}

// Every second one of the 74 samples from `from` on.
pub fn every_second(ring: &[f32; RING], from: usize, out: &mut [f32; HALF])
    requires { from ≤ 256 }
    ensures { out.new ≡ every_second_of ring.now from }
{
    for j in 0..HALF {
        out[j] = ring[(from + 2 * j) % RING];
    }
}
