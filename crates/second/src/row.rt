// A row of symbols, with the floats' parts in arrays of their own.
ghost use Rattle.std.specs.Prelude.{◌≡◌, ◌≤◌, length};
ghost use Rattle.second.specs.Rows.{row_of};
ghost use Rattle.second.specs.Ranges.{Asks};
ghost use Rattle.second.specs.Lends.{GivenLink, LeavesTurns};

use super::link::turned;
use super::{SYMBOLS, Second};
use answer_row::{BYTES, FLAGS};
use answers::PARENTS;
use channels::{CHANNELS, STATES};
use complex::Complex32;
use drift_tracker::DRIFTS;
use least_squares::ALL;

// The first `count` symbols of a row. The inverses start in `even`; after the row they are there if the
// count is even, and in `odd` if it is odd.
pub fn run(
    first: Second,
    symbol_real: &[f32; SYMBOLS],
    symbol_imaginary: &[f32; SYMBOLS],
    reliable: &[bool; SYMBOLS],
    count: usize,
    real: &mut [f32; CHANNELS],
    imaginary: &mut [f32; CHANNELS],
    drift: &mut [f32; DRIFTS],
    even: &mut [f32; ALL],
    odd: &mut [f32; ALL],
    costs: &mut [f32; STATES],
    parents: &mut [u8; PARENTS],
    flags: &mut [bool; FLAGS],
    bytes: &mut [u8; BYTES],
) -> Second
    requires given_link { GivenLink first real imaginary drift even costs parents flags bytes Asks }
    requires odd_len { length odd.old ≡ 8192 }
    requires count_bound { count ≤ 256 }
    ensures leaves_turns { LeavesTurns first result 0 count real imaginary drift even odd costs parents flags bytes
        (λ b a. (a ≡ row_of symbol_real.now symbol_imaginary.now «reliable».now count b) × Asks a) }
    ensures whole { (length even.new ≡ 8192) × (length odd.new ≡ 8192) }
{
    let mut t = first;
    for i in 0..count {
        let symbol = Complex32 {
            real: symbol_real[i],
            imaginary: symbol_imaginary[i],
        };
        t = turned(
            t,
            i,
            symbol,
            reliable[i],
            real,
            imaginary,
            drift,
            even,
            odd,
            costs,
            parents,
            flags,
            bytes,
        );
    }
    t
}
