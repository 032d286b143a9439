// Plays a list of samples, updates and handed-in places from standard input through the clock, and
// writes a line for each: the digest of the place after it and, for a sample, of its windows.
#![tactic(auto)]

use clock::ClockPlace;
use complex::Complex32;
use filter::{RING, TAPS, WINDOWS};
use replay::{any, mixed, mixed_flag, mixed_float32, mixed_plane, print_line, word};

// A record: what is done, and two words of operands.
const RECORD: usize = 24;

// A sample of any two floats.
fn sample(b: u64, c: u64) -> Complex32 {
    Complex32 {
        real: any(b),
        imaginary: any(c),
    }
}

// A place of any numbers, admitted or not.
fn handed_in(b: u64, c: u64) -> ClockPlace {
    ClockPlace {
        start: (c % 65536) as usize,
        count: (c / 65536 % 65536) as usize,
        position: (c / 0x1_0000_0000 % 65536) as usize,
        warm: c / 0x1_0000_0000_0000 == 1,
        phase: any(b),
        rate: any(b / 0x1_0000_0000),
    }
}

// The digest with a place in it.
fn mixed_place(h: u64, c: ClockPlace) -> u64 {
    let counts = mixed(
        mixed(mixed(h, c.start as u64), c.count as u64),
        c.position as u64,
    );
    mixed_float32(mixed_float32(mixed_flag(counts, c.warm), c.phase), c.rate)
}

// A sample into an admitted place. The windows hold 1.5 before, so that those left alone show.
fn stepped<'a>(
    c: ClockPlace,
    sample: Complex32,
    taps: &'a [f32; TAPS],
    derivatives: &'a [f32; TAPS],
    real: &mut [f32; RING],
    imaginary: &mut [f32; RING],
) -> ClockPlace {
    if !clock::is_admitted(c) {
        io::write_all(1, b"not admitted\n");
        return c;
    }
    let mut value_real = [1.5; WINDOWS];
    let mut value_imaginary = [1.5; WINDOWS];
    let mut derivative_real = [1.5; WINDOWS];
    let mut derivative_imaginary = [1.5; WINDOWS];
    let s = clock::step(
        c,
        sample,
        taps,
        derivatives,
        real,
        imaginary,
        &mut value_real,
        &mut value_imaginary,
        &mut derivative_real,
        &mut derivative_imaginary,
    );
    let h = mixed_place(mixed_flag(0, s.due.is_some()), s.place);
    let values = mixed_plane(mixed_plane(h, &value_real), &value_imaginary);
    let all = mixed_plane(mixed_plane(values, &derivative_real), &derivative_imaginary);
    print_line(all, 16);
    s.place
}

// The place after one record.
fn played<'a>(
    place: ClockPlace,
    record: &[u8; RECORD],
    taps: &'a [f32; TAPS],
    derivatives: &'a [f32; TAPS],
    real: &mut [f32; RING],
    imaginary: &mut [f32; RING],
) -> ClockPlace {
    let a = word(record, 0);
    let b = word(record, 8);
    let c = word(record, 16);
    let next = match a {
        0 => return stepped(place, sample(b, c), taps, derivatives, real, imaginary),
        1 => clock::update(place, any(b)),
        _ => handed_in(b, c),
    };
    print_line(mixed_place(0, next), 16);
    next
}

fn main() {
    let t = taps::both_tables();
    let mut real = [0.0; RING];
    let mut imaginary = [0.0; RING];
    let mut place = clock::fresh();
    let mut record = [0u8; RECORD];
    for _ in 0..1000000 {
        if io::read_full(0, &mut record) < RECORD {
            break;
        }
        place = played(
            place,
            &record,
            &t.taps,
            &t.derivatives,
            &mut real,
            &mut imaginary,
        );
    }
}
