// The second stream's floats in one array: taken apart into arrays of their own, and put back.
ghost use Rattle.std.specs.Prelude.{◌≡◌, ◌≤◌, ◌++◌, length, drop};
ghost use Rattle.second.specs.Second.{memory_of, costs_of, joined_of};
ghost use Rattle.second.specs.Ranges.{Parts};
ghost use Rattle.second.specs.Lends.{GivenParts, ShownParts, LeavesParts, EntersParts, EntersHeld};

use channels::{CHANNELS, STATES};
use drift_tracker::DRIFTS;
use least_squares::ALL;

// Each part into its own array.
pub fn take_out(
    memory: &[f32],
    real: &mut [f32; CHANNELS],
    imaginary: &mut [f32; CHANNELS],
    drift: &mut [f32; DRIFTS],
    inverse: &mut [f32; ALL],
    costs: &mut [f32; STATES],
)
    requires in_bounds { 9280 ≤ length memory.now }
    requires given_parts { GivenParts real imaginary drift inverse costs Parts }
    ensures { LeavesParts real imaginary drift inverse costs
        (λ m c. (m ≡ memory_of memory.now) × (c ≡ costs_of memory.now)) }
{
    real.copy_from_slice(&memory[0..256]);
    imaginary.copy_from_slice(&memory[256..512]);
    drift.copy_from_slice(&memory[512..1024]);
    inverse.copy_from_slice(&memory[1024..9216]);
    costs.copy_from_slice(&memory[9216..9280]);
}

// Each array into its part. What lies behind them stays.
pub fn put_in(
    memory: &mut [f32],
    real: &[f32; CHANNELS],
    imaginary: &[f32; CHANNELS],
    drift: &[f32; DRIFTS],
    inverse: &[f32; ALL],
    costs: &[f32; STATES],
)
    requires in_bounds { 9280 ≤ length memory.old }
    requires given_parts { ShownParts real imaginary drift inverse costs Parts }
    ensures { EntersParts real imaginary drift inverse costs
        (λ m c. memory.new ≡ joined_of m c ++ drop 9280 memory.old) }
{
    memory[0..256].copy_from_slice(real);
    memory[256..512].copy_from_slice(imaginary);
    memory[512..1024].copy_from_slice(drift);
    memory[1024..9216].copy_from_slice(inverse);
    memory[9216..9280].copy_from_slice(costs);
}

// The arrays into their parts after a row of `count` symbols: the inverses are in `even` or in `odd`.
pub fn put_back(
    memory: &mut [f32],
    count: usize,
    real: &[f32; CHANNELS],
    imaginary: &[f32; CHANNELS],
    drift: &[f32; DRIFTS],
    even: &[f32; ALL],
    odd: &[f32; ALL],
    costs: &[f32; STATES],
)
    requires in_bounds { 9280 ≤ length memory.old }
    requires given_parts { ShownParts real imaginary drift even costs Parts }
    requires odd_len { length odd.now ≡ 8192 }
    ensures { EntersHeld count real imaginary drift even odd costs
        (λ m c. memory.new ≡ joined_of m c ++ drop 9280 memory.old) }
{
    if count % 2 == 0 {
        put_in(memory, real, imaginary, drift, even, costs);
    } else {
        put_in(memory, real, imaginary, drift, odd, costs);
    }
}
