// Square roots, right to the last bit. The highest one bit of the digits is counted, the digits are
// moved up to the highest even place, and the root is taken a binary digit at a time, one digit more
// than the format keeps: that digit rounds, since no root of a float is a tie. The digits of an `f64`
// are first guessed by floats; a guess is taken where a comparison of whole numbers shows it right.
#![tactic(auto)]

ghost use Rattle.std.specs.Prelude.{◌≡◌, ◌+◌, ◌-◌, ◌*◌, ◌^◌, ◌<◌, ◌≤◌, T, true, if◌then◌else◌, nat_le};
ghost use Rattle.std.specs.Float.Ieee.{fits, low, ones, prec};
ghost use Rattle.numbers.specs.Root.{round_root, sqrt_of};
ghost use Rattle.roots.specs.Radicands.{radicand_of, HalfRoot};

use patterns::width::Width;
use patterns::{digits, pow2, power};
use std::num::wrapping_sub_u64;

// What a root is taken of. The number is its own root (a NaN, a zero, the infinity), it has none, or
// it is digits * 2 ^ power of the format's smallest values, and above zero.
#[derive(Clone, Copy)]
pub enum Radicand {
    Itself,
    Negative,
    Digits(u64, u64),
}

// 1 where c is at most a.
fn digit(c: u64, a: u64) -> u64
    ensures { result ≡ (if nat_le c a then 1 else 0) }
{
    if c <= a { 1 } else { 0 }
}

// The whole part of the root of n * 4 ^ steps / 2 ^ 64.
fn root(n: u64, steps: u64) -> u64
    requires { steps ≤ 60 }
    ensures least { result * result * 2 ^ 64 ≤ n * 2 ^ (steps + steps) }
    ensures most { n * 2 ^ (steps + steps) < (result + 1) * (result + 1) * 2 ^ 64 }
{
    let mut q: u64 = 0;
    let mut rem: u64 = 0;
    let mut rest = n;
    for i in 0..steps {
        let a = rem * 4 + rest / 0x4000_0000_0000_0000;
        let g = digit(q * 4 + 1, a);
        rem = a - g * (q * 4 + 1);
        q = q * 2 + g;
        rest = rest % 0x4000_0000_0000_0000 * 4;
    }
    q
}

// The bits of the `f64` n / 2 ^ 12, for an n from 2 ^ 62 on.
fn lowered(n: u64) -> u64
    ensures { result < 1075 * 2 ^ 52 }
{
    if n < 0x8000_0000_0000_0000 {
        n / 0x400 + 0x4300_0000_0000_0000
    } else {
        n / 0x800 + 0x4310_0000_0000_0000
    }
}

// A guess at the root of n * 2 ^ 42, for an n from 2 ^ 62 on. y starts within 4 % of the inverse of the
// root of f. In three steps s comes close to that root, and t to half of its inverse; the first step's
// number is a little over a half, which evens out its error. The last step has the whole part w of s,
// whose square is exact, and what is left of f. After the first step s errs downward, which is the
// side that a root which is almost a tie lies on.
fn guess(n: u64) -> u64
    ensures { result < 2 ^ 53 }
{
    let b = lowered(n);
    let f = f64::from_bits(b);
    let y = f64::from_bits(0x5fe6_eb50_c7b5_37a9 - b / 2);
    let s0 = f * y;
    let t0 = 0.5 * y;
    let e0 = 0.50087 - s0 * t0;
    let s1 = s0 + s0 * e0;
    let t1 = t0 + t0 * e0;
    let e1 = 0.5 - s1 * t1;
    let s2 = s1 + s1 * e1;
    let t2 = t1 + t1 * e1;
    let e2 = 0.5 - s2 * t2;
    let s = s2 + s2 * e2;
    let t = t2 + t2 * e2;
    let w = (s + 4503599627370495.5) - 4503599627370496.0;
    let u = (f - w * w) * t;
    let g = w + (u + u * ((s - w) * t));
    if g != g {
        return 0;
    }
    f64::to_bits(g) % 0x10_0000_0000_0000 + 0x10_0000_0000_0000
}

// Whether q is seen to be the root of n * 2 ^ 42 to the nearest whole number. The two sides are
// n / 2 ^ 12 * 2 ^ 54 + n % 2 ^ 12 * 2 ^ 42 and, by the halves of q,
// high * high * 2 ^ 54 + 2 * high * low * 2 ^ 27 + low * low. One is taken off the other from the
// highest place down, with 2 ^ 54 added, so that a difference a little below zero is a number too. Of
// a large difference, or one that wraps, nothing is seen.
fn confirmed(n: u64, q: u64) -> bool
    requires { q < 2 ^ 53 }
    ensures { result ≡ true → HalfRoot n q }
{
    let high = q / 0x800_0000;
    let low = q % 0x800_0000;
    let first = wrapping_sub_u64(n / 0x1000 + 1, high * high);
    if first >= 0x1000_0000 {
        return false;
    }
    let last = wrapping_sub_u64(first * 0x800_0000 + n % 0x1000 * 0x8000, high * low * 2);
    if last >= 0x4000_0000 {
        return false;
    }
    let left = last * 0x800_0000;
    let lower = low * low + 0x40_0000_0000_0000;
    if left + q <= lower {
        return false;
    }
    left <= lower + q
}

// Half of the whole part of the root of n * 2 ^ 44, rounded up.
fn half_root(n: u64) -> u64
    ensures { HalfRoot n result }
{
    let q = guess(n);
    if confirmed(n, q) {
        return q;
    }
    let w = root(n, 54);
    w / 2 + w % 2
}

// A width of float, with its way to a root.
pub trait Rooted: Width {
    // The root of d * 2 ^ p smallest values.
    fn finite_root(d: u64, p: u64) -> Self
        requires d_nonzero { 0 < d }
        requires d_bound { d < 2 ^ prec Self.format }
        requires p_bound { p ≤ ones Self.format - 2 }
        ensures { Self.number result ≡ round_root Self.format (d * 2 ^ p) (2 ^ low Self.format) };
}

impl Rooted for f64 {
    fn finite_root(d: u64, p: u64) -> f64 {
        let z = d.leading_zeros() as u64;
        let y = z - (p + z) % 2;
        let q = half_root(d * pow2(y));
        f64::from_bits((p + 1032 - y) / 2 * 0x10_0000_0000_0000 + q)
    }
}

impl Rooted for f32 {
    fn finite_root(d: u64, p: u64) -> f32 {
        let z = d.leading_zeros() as u64;
        let y = z - (p + z + 1) % 2;
        let w = root(d * pow2(y), 25);
        f32::from_bits(((p + 165 - y) / 2 * 0x80_0000 + (w + 1) / 2) as u32)
    }
}

#[tactic(auto, unfolding(crate::specs::Radicands::radicand_of))]
fn prepared<F: Width>(x: F) -> Radicand
    ensures value { result ≡ radicand_of F.format (F.number x) }
    ensures held { T (fits F.format (F.number x)) }
{
    let b = x.pattern();
    if x.is_nan() {
        return Radicand::Itself;
    }
    if x.is_zero() {
        return Radicand::Itself;
    }
    if b >= F::SIGN {
        return Radicand::Negative;
    }
    if b == F::INFINITY {
        return Radicand::Itself;
    }
    Radicand::Digits(digits::<F>(b), power::<F>(b))
}

pub fn sqrt<F: Rooted>(x: F) -> F
    ensures { F.number result ≡ sqrt_of F.format (F.number x) }
{
    match prepared(x) {
        Radicand::Itself => x,
        Radicand::Negative => F::not_a_number(),
        Radicand::Digits(d, p) => F::finite_root(d, p),
    }
}
