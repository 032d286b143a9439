// Runs every number helper on each record of three words from standard input, and writes a line for
// each record: the digest of the answers, in the order of the list that the oracle prints.
#![tactic(auto)]

use numbers::{bits, compare, narrow};
use replay::{mixed, mixed_flag, mixed_float, mixed_float32, print_line, record, word};

// The ends of a range, or fixed ones where b and c are none.
fn bounds<T: PartialOrd + Copy>(b: T, c: T, fixed: (T, T)) -> (T, T) {
    if b <= c { (b, c) } else { fixed }
}

fn low_half(a: u64) -> u32 {
    (a % 0x1_0000_0000) as u32
}

fn signs(h: u64, x: f64, y: f32) -> u64 {
    let flags = [
        compare::is_nan(x),
        compare::is_nan(y),
        compare::is_finite(x),
        compare::is_finite(y),
        compare::is_negative(x),
        compare::is_negative(y),
    ];
    let h = flags.into_iter().fold(h, mixed_flag);
    let h = mixed_float(h, compare::abs(x));
    mixed_float32(h, compare::abs(y))
}

fn ends(h: u64, x: f64, b: f64, c: f64, y: f32, d: f32, e: f32) -> u64 {
    let h = mixed_float(h, compare::min(x, b));
    let h = mixed_float32(h, compare::min(y, d));
    let h = mixed_float(h, compare::max(x, b));
    let h = mixed_float32(h, compare::max(y, d));
    let (low, high) = bounds(b, c, (-2.5, 1.0e10));
    let h = mixed_float(h, compare::clamp(x, low, high));
    let (low, high) = bounds(d, e, (-2.5, 1.0e10));
    mixed_float32(h, compare::clamp(y, low, high))
}

fn roundings(h: u64, x: f64, y: f32) -> u64 {
    let h = mixed_float(h, narrow::widen(y));
    let h = mixed_float32(h, narrow::narrow(x));
    let h = mixed_float(h, whole::floor(x));
    let h = mixed_float32(h, whole::floor(y));
    let h = mixed_float(h, whole::round(x));
    let h = mixed_float(h, whole::round_ties_even(x));
    let h = mixed_float(h, roots::sqrt(x));
    mixed_float32(h, roots::sqrt(y))
}

fn casts(h: u64, a: u64, x: f64, y: f32) -> u64 {
    let h = mixed_float(h, whole::from_i64(bits::signed(a)));
    let h = mixed(h, bits::unsigned(whole::to_i64(x)));
    let h = mixed(h, bits::unsigned(i64::from(whole::to_i32(y))));
    let h = mixed(h, u64::from(whole::to_u8(y)));
    mixed(h, bits::unsigned(bits::signed(a)))
}

fn decoded(h: u64, a: u64) -> u64 {
    let h = mixed_float(h, bits::decoded(a.to_le_bytes()));
    mixed_float32(h, bits::decoded32(low_half(a).to_le_bytes()))
}

fn digest(a: u64, b: u64, c: u64) -> u64 {
    let x = bits::float(a);
    let y = bits::float32(low_half(a));
    let h = signs(0, x, y);
    let h = ends(
        h,
        x,
        bits::float(b),
        bits::float(c),
        y,
        bits::float32(low_half(b)),
        bits::float32(low_half(c)),
    );
    let h = roundings(h, x, y);
    let h = casts(h, a, x, y);
    decoded(h, a)
}

fn main() {
    for r in std::iter::from_fn(record::<24>).take(1_000_000) {
        print_line(digest(word(&r, 0), word(&r, 8), word(&r, 16)), 16);
    }
}
