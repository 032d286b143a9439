// What the replay programs share: words from a list of bytes, a digest of answers, lines of
// hexadecimal, and the numbers of states that are made from a seed. Test machinery: it is proved safe
// and ending, and promises no more.
#![tactic(auto)]

ghost use Rattle.std.specs.Prelude.{◌≡◌, ◌+◌, ◌≤◌, length};

use decimator::{Decimator, Parts, Stages};
use numbers::bits::{float32, pattern, pattern32};

const OUT: i32 = 1;

// The next record of N bytes from standard input, if a whole one is left. A program runs
// `for r in std::iter::from_fn(record::<N>).take(1_000_000)`, which ends with the input or after a million.
pub fn record<const N: usize>() -> Option<[u8; N]> {
    let mut bytes = [0; N];
    let got = io::read_full(0, &mut bytes);
    (got == N).then_some(bytes)
}

// The digest h with one answer more. Each step can be undone, so a single wrong answer always shows.
pub fn mixed(h: u64, x: u64) -> u64 {
    let a = h ^ x;
    let b = a.wrapping_add(a << 21);
    let c = b ^ (b >> 24);
    let d = c.wrapping_add(c << 3);
    let e = d.wrapping_add(d << 8);
    e ^ (e >> 14)
}

fn mixed_stages(h: u64, s: Stages) -> u64 {
    mixed(mixed(mixed(h, s.first), s.second), s.third)
}

fn mixed_parts(h: u64, p: Parts) -> u64 {
    mixed_stages(mixed_stages(h, p.real), p.imaginary)
}

// The digest with a decimator more: its counter, its integrators and its combs.
pub fn mixed_decimator(h: u64, d: Decimator) -> u64 {
    let counted = mixed(h, d.counter as u64);
    mixed_parts(mixed_parts(counted, d.integrators), d.combs)
}

pub fn mixed_float(h: u64, x: f64) -> u64 {
    mixed(h, pattern(x))
}

pub fn mixed_float32(h: u64, x: f32) -> u64 {
    mixed(h, u64::from(pattern32(x)))
}

pub fn mixed_flag(h: u64, x: bool) -> u64 {
    mixed(h, u64::from(x))
}

// The little-endian word of eight bytes from a place on.
pub fn word(s: &[u8], at: usize) -> u64
    requires { at + 8 ≤ length s.now }
{
    let mut bytes = [0; 8];
    bytes.copy_from_slice(&s[at..at + 8]);
    u64::from_le_bytes(bytes)
}

// A line of hexadecimal digits, as many as width says.
pub fn print_line(n: u64, width: usize) {
    io::print_hex(OUT, n, width);
    io::write_all(OUT, b"\n");
}

// The digest with all numbers of a plane.
pub fn mixed_plane(h: u64, plane: &[f32]) -> u64 {
    plane.iter().fold(h, |d, x| mixed_float32(d, *x))
}

// The digest with all bytes of a list.
pub fn mixed_bytes(h: u64, s: &[u8]) -> u64 {
    s.iter().fold(h, |d, x| mixed(d, u64::from(*x)))
}

// The seed of the next number.
pub fn next(s: u64) -> u64 {
    mixed(s, 1)
}

// A number in -1..1 from a seed's high bits.
pub fn unit(s: u64) -> f32 {
    std::num::nearest_u32_to_f32((s / 0x100_0000_0000) as u32) / 8388608.0 - 1.0
}

// Its low half as a float: any pattern.
pub fn any(s: u64) -> f32 {
    float32((s % 0x1_0000_0000) as u32)
}

// A part of a sample, of a kind: moderate, large, huge, any pattern.
pub fn sample_part(s: u64, kind: u64) -> f32 {
    match kind {
        0 => unit(s),
        1 => unit(s) * 1000000.0,
        2 => unit(s) * 1.0e30,
        _ => any(s),
    }
}

// NaN, infinities, the largest, the smallest, zeros.
fn special(k: u64) -> f32 {
    match k {
        0 => float32(0x7fc0_0000),
        1 => float32(0x7f80_0000),
        2 => float32(0xff80_0000),
        3 => float32(0x7f7f_ffff),
        4 => float32(0xff7f_ffff),
        5 => float32(1),
        6 => 0.0,
        _ => float32(0x8000_0000),
    }
}

// 0 to 48 in quarters.
fn quarters(s: u64) -> f32 {
    std::num::nearest_u32_to_f32((s / 0x100_0000_0000 % 193) as u32) / 4.0
}

// One number of a state, of a kind: what stood there; moderate; now and then a special one; any
// pattern; quarters; infinity; 3.5; of either sign.
pub fn part(kind: u64, s: u64, before: f32) -> f32 {
    match kind {
        0 => before,
        2 if s % 8 == 0 => special(s / 8 % 8),
        1 | 2 => unit(s) * 2.0,
        3 => any(s),
        4 => quarters(s),
        5 => special(1),
        6 => 3.5,
        _ => unit(s) * 100.0,
    }
}

// Numbers of a kind all over a plane, and the seed after them.
pub fn fill(s: u64, kind: u64, plane: &mut [f32]) -> u64
    ensures { length plane.new ≡ length plane.old }
{
    let mut seed = s;
    for x in plane {
        seed = next(seed);
        *x = part(kind, seed, *x);
    }
    seed
}

// Every float another one, so that a stray write shows.
pub fn mark(floats: &mut [f32]) {
    let mut pattern: u32 = 0x4000_0000;
    for x in floats {
        *x = float32(pattern);
        pattern = pattern.wrapping_add(1);
    }
}
