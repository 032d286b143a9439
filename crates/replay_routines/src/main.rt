// Runs the five routines on each record of three words from standard input, and writes a line for
// each record: the digest of the answers, in the order of the list that the oracle prints.
#![tactic(auto)]

use numbers::bits;
use replay::{mixed_float, mixed_float32, print_line, record, word};
use routines::angle::arctangent;
use routines::circle::{cosine, sine, sine_cosine};
use routines::hypotenuse::hypotenuse;

fn low_half(a: u64) -> u32 {
    (a % 0x1_0000_0000) as u32
}

// The word a is an angle; the low halves of b and c are y and x of a point.
fn digest(a: u64, b: u64, c: u64) -> u64 {
    let angle = bits::float(a);
    let y = bits::float32(low_half(b));
    let x = bits::float32(low_half(c));
    let h1 = mixed_float(0, sine(angle));
    let h2 = mixed_float(h1, cosine(angle));
    let pair = sine_cosine(angle);
    let h3 = mixed_float(h2, pair.sine);
    let h4 = mixed_float(h3, pair.cosine);
    let h5 = mixed_float32(h4, arctangent(y, x));
    mixed_float32(h5, hypotenuse(y, x))
}

fn main() {
    for r in std::iter::from_fn(record::<24>).take(1_000_000) {
        print_line(digest(word(&r, 0), word(&r, 8), word(&r, 16)), 16);
    }
}
