// Plays a list of steps from standard input through the equalizer, and writes a line for each: the
// digest of its symbol, its timing error and all its weights.
#![tactic(auto)]

ghost use Rattle.std.specs.Prelude.{◌+◌, ◌*◌, ◌≤◌};

use equalizer::{Equalized, WEIGHTS};
use numbers::bits::decoded32;
use replay::{mixed_float32, mixed_plane, print_line};

// A record: flags, then six planes of 21 floats, four bytes each.
const RECORD: usize = 508;

// The plane from a place on.
fn plane(record: &[u8; RECORD], from: usize) -> [f32; WEIGHTS]
    requires { from + 84 ≤ 508 }
{
    let mut values = [0.0; WEIGHTS];
    for k in 0..WEIGHTS {
        let at = from + 4 * k;
        values[k] = decoded32([record[at], record[at + 1], record[at + 2], record[at + 3]]);
    }
    values
}

// The digest of a symbol, its timing error and all weights.
fn told(equalized: Equalized, wr: &[f32; WEIGHTS], wi: &[f32; WEIGHTS]) -> u64 {
    let h = mixed_float32(
        mixed_float32(0, equalized.value.real),
        equalized.value.imaginary,
    );
    mixed_plane(mixed_plane(mixed_float32(h, equalized.timing), wr), wi)
}

// One step: flag 1 says reliable, flag 2 that the weights are handed in.
fn played(record: &[u8; RECORD], wr: &mut [f32; WEIGHTS], wi: &mut [f32; WEIGHTS]) {
    let flags = record[0];
    if flags / 2 % 2 == 1 {
        *wr = plane(record, 4);
        *wi = plane(record, 88);
    }
    let xr = plane(record, 172);
    let xi = plane(record, 256);
    let dr = plane(record, 340);
    let di = plane(record, 424);
    let equalized = equalizer::equalize(wr, wi, &xr, &xi, &dr, &di, flags % 2 == 1);
    print_line(told(equalized, wr, wi), 16);
}

fn main() {
    let mut wr = equalizer::fresh_real();
    let mut wi = equalizer::fresh_imaginary();
    let mut record = [0u8; RECORD];
    for _ in 0..1000000 {
        if io::read_full(0, &mut record) < RECORD {
            break;
        }
        played(&record, &mut wr, &mut wi);
    }
}
