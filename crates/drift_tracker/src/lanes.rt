// Taps and drifts of all states: put in one array and apart again, taken from the parents, and moved.
ghost use Rattle.std.specs.Prelude.{◌≡◌, ◌+◌, ◌/◌, ◌<◌, ◌≤◌};
ghost use Rattle.complex.specs.Lends.{Reads, Leaves};
ghost use Rattle.complex.specs.Planes.{point_at};
ghost use Rattle.channels.specs.Channels.{Parents};
ghost use Rattle.least_squares.specs.Lanes.{pair_at};
ghost use Rattle.drift_tracker.specs.Drift.{drift_at, drifts_of, parent_of};
ghost use Rattle.drift_tracker.specs.Layout.{joined_of, split_of, in_fours, moved_from};

use super::DRIFTS;
use channels::{CHANNELS, STATES};
use complex::Complex32;
use least_squares::limits::is_usable;
use least_squares::step::moved;
use least_squares::{EIGHTS, LANES, PAIRS};

fn point(real: &[f32; CHANNELS], imaginary: &[f32; CHANNELS], k: usize) -> Complex32
    requires { k < 256 }
    ensures { Reads real imaginary (λ c. result ≡ point_at c k) }
{
    Complex32 {
        real: real[k],
        imaginary: imaginary[k],
    }
}

// The number k of an array that holds its numbers' imaginary parts half its length further.
fn number<const N: usize>(all: &[f32; N], k: usize) -> Complex32
    requires { k + N / 2 < N }
    ensures { result ≡ pair_at (N / 2) all.now k }
{
    Complex32 {
        real: all[k],
        imaginary: all[k + N / 2],
    }
}

// Two planes in one array.
pub fn join(real: &[f32; CHANNELS], imaginary: &[f32; CHANNELS], all: &mut [f32; DRIFTS])
    ensures { Reads real imaginary (λ c. all.new ≡ joined_of c) }
{
    for k in 0..CHANNELS {
        let z = point(real, imaginary, k);
        all[k] = z.real;
        all[k + 256] = z.imaginary;
    }
}

// And apart again.
pub fn split(all: &[f32; DRIFTS], real: &mut [f32; CHANNELS], imaginary: &mut [f32; CHANNELS])
    ensures { Leaves real imaginary (λ before after. after ≡ split_of all.now) }
{
    for k in 0..CHANNELS {
        real[k] = all[k];
        imaginary[k] = all[k + 256];
    }
}

pub fn parent(parents: &[u8; STATES], s: usize) -> usize
    requires s_of_64 { s < 64 }
    requires states { Parents parents.now }
    ensures same { result ≡ parent_of parents.now s }
    ensures near { result < 64 }
{
    parents[s] as usize
}

// Each state's four numbers are its parent's.
pub fn inherit(all: &[f32; DRIFTS], parents: &[u8; STATES], new: &mut [f32; DRIFTS])
    requires { Parents parents.now }
    ensures { new.new ≡ drifts_of (λ s. drift_at all.now (parent_of parents.now s)) }
{
    for k in 0..CHANNELS {
        let p = parent(parents, k % 64);
        let z = number(all, 64 * (k / 64) + p);
        new[k] = z.real;
        new[k + 256] = z.imaginary;
    }
}

// The four numbers of the sixteen states from 16 g on are moved by each lane's gain, from its number `from`
// on, times its error.
pub fn pull(
    all: &mut [f32; DRIFTS],
    gain: &[f32; EIGHTS],
    from: usize,
    error: &[f32; PAIRS],
    d: &[f32; LANES],
    g: usize,
)
    requires from_of_row { from ≤ 4 }
    requires g_of_four { g < 4 }
    ensures { all.new ≡ in_fours g (moved_from all.old gain.now from error.now d.now) all.old }
{
    for t in 0..4 {
        for l in 0..16 {
            let tap = number(all, 64 * t + 16 * g + l);
            let z = moved(
                tap,
                number(gain, 16 * (t + from) + l),
                number(error, l),
                is_usable(d[l]),
            );
            all[64 * t + 16 * g + l] = z.real;
            all[64 * t + 16 * g + l + 256] = z.imaginary;
        }
    }
}
