// Plays a list of pushes and reads from standard input through the constellation view, and writes a
// line for each: the digest of what it answered, the floats lent to a read included.
#![tactic(auto)]

use complex::Complex32;
use replay::{any, mark, mixed, mixed_float, mixed_float32, mixed_plane, print_line, word};
use signal::{POINTS, Reading, ViewPlace};

// A symbol of any two floats, or none.
fn observation(present: bool, b: u64, c: u64) -> Option<Complex32> {
    if present {
        Some(Complex32 {
            real: any(b),
            imaginary: any(c),
        })
    } else {
        None
    }
}

// A read into the first floats of the buffer.
fn read(
    place: ViewPlace,
    real: &[f32; POINTS],
    imaginary: &[f32; POINTS],
    floats: usize,
    output: &mut [f32],
) -> Reading {
    if place.head < POINTS {
        if place.count <= POINTS {
            if floats <= output.len() {
                let lent = &mut output[0..floats];
                return signal::read(place, real, imaginary, lent);
            }
        }
    }
    Reading {
        count: 9999,
        error: 0.0,
    }
}

// The digest of what a read answers, and of the whole buffer.
fn shown(place: ViewPlace, real: &[f32; POINTS], imaginary: &[f32; POINTS], floats: usize) -> u64 {
    let mut output = [0.0; 4001];
    mark(&mut output);
    let reading = read(place, real, imaginary, floats, &mut output);
    let h = mixed(0, reading.count as u64);
    mixed_plane(mixed_float(h, reading.error), &output)
}

// A push into a place that may be run.
fn pushed(
    place: ViewPlace,
    symbol: Option<Complex32>,
    real: &mut [f32; POINTS],
    imaginary: &mut [f32; POINTS],
) -> ViewPlace {
    if place.head < POINTS {
        signal::push(place, symbol, real, imaginary)
    } else {
        place
    }
}

// The place after a push, and the point that it put in the ring.
fn told(place: ViewPlace, real: &[f32; POINTS], imaginary: &[f32; POINTS]) -> u64 {
    let at = (place.head % 1024 + 1023) % 1024;
    let h = mixed(mixed(0, place.head as u64), place.count as u64);
    mixed_float32(mixed_float32(h, real[at]), imaginary[at])
}

// One record: 0 pushes an absent symbol, 1 the symbol of b and c, any other reads into b floats.
fn played(
    place: ViewPlace,
    kind: u64,
    b: u64,
    c: u64,
    real: &mut [f32; POINTS],
    imaginary: &mut [f32; POINTS],
) -> ViewPlace {
    if kind < 2 {
        let after = pushed(place, observation(kind == 1, b, c), real, imaginary);
        print_line(told(after, real, imaginary), 16);
        after
    } else {
        print_line(shown(place, real, imaginary, b as usize), 16);
        place
    }
}

fn main() {
    let mut real = [0.0; POINTS];
    let mut imaginary = [0.0; POINTS];
    let mut place = signal::fresh();
    let mut record = [0u8; 24];
    for _ in 0..1000000 {
        if io::read_full(0, &mut record) < 24 {
            break;
        }
        place = played(
            place,
            word(&record, 0),
            word(&record, 8),
            word(&record, 16),
            &mut real,
            &mut imaginary,
        );
    }
}
