// What the front still holds of the neighbour.
use super::decimated::{last_value, unlike_fresh};
use complex::Planes;
use receiver_state::state::Receiver;

const OUT: i32 = 1;

fn print(text: &[u8], n: u64) {
    io::write_all(OUT, text);
    io::print_decimal(OUT, n);
}

pub fn plus(n: u64, more: bool) -> u64 {
    if more {
        std::num::wrapping_add_u64(n, 1)
    } else {
        n
    }
}

pub fn is_zero(real: f32, imaginary: f32) -> bool {
    real == 0.0 && imaginary == 0.0
}

// After the neighbour, the decimator is given zeros.
pub fn told_off(r: &Receiver) {
    print(
        b"neighbour off: the last decimated value that is not 0 comes with sample ",
        last_value(r.front.decimator),
    );
    io::write_all(OUT, b"\n");
}

// How many of the ring's first values are not 0.
fn not_zero(ring: &Planes<592>, count: usize) -> u64 {
    let mut n: u64 = 0;
    for i in 0..count.min(592) {
        n = plus(n, !is_zero(ring.real[i], ring.imaginary[i]));
    }
    n
}

fn print_ring(r: &Receiver) {
    let arm = r.front.resampler.arm;
    if arm <= 576 {
        let places = arm + 16;
        print(
            b"silence over: values in the ring that are not 0: ",
            not_zero(&r.ring, places),
        );
        print(b" of ", places as u64);
        io::write_all(OUT, b"\n");
    }
}

// After the silence: the ring, and the decimator on the samples to come beside a fresh one.
pub fn told_over(r: &Receiver, samples: &[f32]) {
    print_ring(r);
    let u = unlike_fresh(r.front.decimator, samples);
    print(
        b"decimated values after it unlike a fresh decimator's: ",
        u.unlike,
    );
    print(b" of ", u.made);
    io::write_all(OUT, b"\n");
}

// How many of the blocks from one on, up to another, have unlike digests.
fn unlike(with: &[u64; 24], without: &[u64; 24], from: usize, end: usize) -> u64 {
    let mut n: u64 = 0;
    for k in from..end.min(24) {
        n = plus(n, with[k] != without[k]);
    }
    n
}

pub fn compare(with: &[u64; 24], without: &[u64; 24]) {
    print(
        b"blocks whose values from the front are unlike those without the neighbour: ",
        unlike(with, without, 0, 4),
    );
    print(b" of 4, ", unlike(with, without, 4, 6));
    print(b" of 2, ", unlike(with, without, 6, 24));
    io::write_all(OUT, b" of 18\n");
}
