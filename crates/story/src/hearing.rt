// A receiver that hears the samples block by block.
ghost use Rattle.std.specs.Prelude.{◌≡◌, length};

use super::kept::{told_off, told_over};
use receiver_state::state::Receiver;
use replay::mixed_plane;

const OUT: i32 = 1;

fn print_dibit(dibit: u8, first: u8, second: u8) {
    io::print_decimal(OUT, dibit as u64);
    io::write_all(OUT, b" ");
    io::print_decimal(OUT, first as u64);
    io::write_all(OUT, b" ");
    io::print_decimal(OUT, second as u64);
    io::write_all(OUT, b"\n");
}

fn print_dibits(dibits: &[u8; 2052], reliabilities: &[u8; 4104], count: usize) {
    for i in 0..count.min(2052) {
        print_dibit(dibits[i], reliabilities[2 * i], reliabilities[2 * i + 1]);
    }
}

// The peak keeper holds the last 64 values from the front, and a block makes 52 at most.
fn values(r: &Receiver) -> u64 {
    mixed_plane(
        mixed_plane(0, &r.planes.recovery.keeper.real),
        &r.planes.recovery.keeper.imaginary,
    )
}

// A block is taken, and its dibits told.
fn heard(r: &mut Receiver, table: &[f32], block: &[f32], told: bool) {
    let mut dibits = [0u8; 2052];
    let mut reliabilities = [0u8; 4104];
    if let Ok(b) = receiver::block::take(r, table, block, &mut dibits, &mut reliabilities) {
        if told {
            print_dibits(&dibits, &reliabilities, b.count);
        }
    }
}

// What is told after a block: the fourth ends the neighbour, the sixth the silence.
fn tell(r: &Receiver, k: usize, samples: &[f32]) {
    if k == 3 {
        told_off(r);
    } else if k == 5 {
        told_over(r, samples);
    }
}

// All the blocks, and the values' digest after each.
pub fn hear(rate: f64, offset: f64, samples: &[f32], told: bool, digests: &mut [u64; 24])
    requires { length samples.now ≡ 49152 }
{
    let mut table = [0.0; 18432];
    let mut r = receiver::setup::told(receiver::setup::set_up(rate, offset, 0, &mut table));
    for k in 0..24 {
        heard(&mut r, &table, &samples[2048 * k..2048 * k + 2048], told);
        digests[k] = values(&r);
        if told {
            tell(&r, k, samples);
        }
    }
}
