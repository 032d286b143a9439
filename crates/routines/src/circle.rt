// Sine, cosine and their pair. An angle that is a NaN, infinite or beyond 64 in size gives NaN.
ghost use Rattle.std.specs.Prelude.{◌≡◌, true, false};
ghost use Rattle.std.specs.Float.Ieee.{le};
ghost use Rattle.numbers.specs.Numbers.{sign_of};
ghost use Rattle.routines.specs.Circle as Circle;

use numbers::compare::{abs, clamp, is_negative};

const TWO_OVER_PI: f64 = 0.6366197723675814;

// pi / 2 in parts of 33, 33 and 53 bits: with a whole factor up to 64 the first two products are
// exact.
const HALF_PI_HIGH: f64 = 1.5707963267341256;

const HALF_PI_MIDDLE: f64 = 6.077100506303966e-11;

const HALF_PI_LOW: f64 = 2.0222662487959506e-21;

// The coefficients of sine and cosine, by their names in docs/ROUTINES.md.
const S1: f64 = 0.16666666666666632;

const S2: f64 = 0.00833333333332249;

const S3: f64 = 0.0001984126982985795;

const S4: f64 = 2.7557313707070068e-6;

const S5: f64 = 2.5050760253406863e-8;

const S6: f64 = 1.58969099521155e-10;

const C1: f64 = 0.0416666666666666;

const C2: f64 = 0.001388888888887411;

const C3: f64 = 2.480158728947673e-5;

const C4: f64 = 2.7557314351390663e-7;

const C5: f64 = 2.087572321298175e-9;

const C6: f64 = 1.1359647557788195e-11;

#[derive(Clone, Copy)]
pub struct SineCosine {
    pub sine: f64,
    pub cosine: f64,
}

// What is left of an angle after whole quarter turns, rest + tail, and their number modulo 4.
#[derive(Clone, Copy)]
struct Remainder {
    quarter: u64,
    rest: f64,
    tail: f64,
}

// The quarter turns of an angle of 0 to 64, to the nearest.
fn turns(a: f64) -> u64
    requires not_negative { sign_of a ≡ false }
    requires in_reach { le a Circle.farthest ≡ true }
    ensures { result ≡ Circle.turns_of a }
{
    std::num::truncating_f64_to_u64(TWO_OVER_PI * a + 0.5)
}

// What each difference rounds off is taken on into the next.
fn reduced(a: f64) -> Remainder
    requires not_negative { sign_of a ≡ false }
    requires in_reach { le a Circle.farthest ≡ true }
    ensures { result ≡ Circle.reduced_of a }
{
    let n = turns(a);
    let k = std::num::nearest_u64_to_f64(n);
    let t = a - k * HALF_PI_HIGH;
    let w = k * HALF_PI_MIDDLE;
    let u = t - w;
    let e = (t - u) - w;
    let v = k * HALF_PI_LOW - e;
    let rest = u - v;
    Remainder {
        quarter: n % 4,
        rest: rest,
        tail: (u - rest) - v,
    }
}

// The sine of a rest of at most pi / 4 in size with its tail.
fn near_sine(rest: f64, tail: f64) -> f64
    ensures { result ≡ Circle.near_sine rest tail }
{
    let z = rest * rest;
    let v = z * rest;
    let q5 = S5 - z * S6;
    let q4 = S4 - z * q5;
    let q3 = S3 - z * q4;
    let q2 = S2 - z * q3;
    let g = z * (0.5 * tail - v * q2) - tail;
    rest - (g + v * S1)
}

// The cosine of such a rest.
fn near_cosine(rest: f64, tail: f64) -> f64
    ensures { result ≡ Circle.near_cosine rest tail }
{
    let z = rest * rest;
    let q5 = C5 - z * C6;
    let q4 = C4 - z * q5;
    let q3 = C3 - z * q4;
    let q2 = C2 - z * q3;
    let q1 = C1 - z * q2;
    let h = 0.5 * z;
    let w = 1.0 - h;
    w + (((1.0 - w) - h) + (z * (z * q1) - rest * tail))
}

// The sine after the quarter turns, by the one of the two polynomials that it takes.
fn turned_sine(a: Remainder) -> f64
    ensures { result ≡ Circle.turned_sine a }
{
    let q = a.quarter;
    if q == 0 {
        near_sine(a.rest, a.tail)
    } else if q == 1 {
        near_cosine(a.rest, a.tail)
    } else if q == 2 {
        -near_sine(a.rest, a.tail)
    } else {
        -near_cosine(a.rest, a.tail)
    }
}

fn turned_cosine(a: Remainder) -> f64
    ensures { result ≡ Circle.turned_cosine a }
{
    let q = a.quarter;
    if q == 0 {
        near_cosine(a.rest, a.tail)
    } else if q == 1 {
        -near_sine(a.rest, a.tail)
    } else if q == 2 {
        -near_cosine(a.rest, a.tail)
    } else {
        near_sine(a.rest, a.tail)
    }
}

// Both after the quarter turns.
fn turned_pair(a: Remainder) -> SineCosine
    ensures { result ≡ Circle.turned_pair a }
{
    let q = a.quarter;
    let s = near_sine(a.rest, a.tail);
    let c = near_cosine(a.rest, a.tail);
    if q == 0 {
        SineCosine { sine: s, cosine: c }
    } else if q == 1 {
        SineCosine {
            sine: c,
            cosine: -s,
        }
    } else if q == 2 {
        SineCosine {
            sine: -s,
            cosine: -c,
        }
    } else {
        SineCosine {
            sine: -c,
            cosine: s,
        }
    }
}

// The sine of an angle with no sign.
fn size_sine(a: f64) -> f64
    requires { sign_of a ≡ false }
    ensures { result ≡ Circle.size_sine a }
{
    if a <= 64.0 {
        clamp(turned_sine(reduced(a)), -1.0, 1.0)
    } else {
        0.0 / 0.0
    }
}

fn size_cosine(a: f64) -> f64
    requires { sign_of a ≡ false }
    ensures { result ≡ Circle.size_cosine a }
{
    if a <= 64.0 {
        clamp(turned_cosine(reduced(a)), -1.0, 1.0)
    } else {
        0.0 / 0.0
    }
}

fn size_pair(a: f64) -> SineCosine
    requires { sign_of a ≡ false }
    ensures { result ≡ Circle.size_pair a }
{
    if a <= 64.0 {
        let p = turned_pair(reduced(a));
        SineCosine {
            sine: clamp(p.sine, -1.0, 1.0),
            cosine: clamp(p.cosine, -1.0, 1.0),
        }
    } else {
        SineCosine {
            sine: 0.0 / 0.0,
            cosine: 0.0 / 0.0,
        }
    }
}

// The size v with the sign of x.
fn with_sign(x: f64, v: f64) -> f64
    ensures { result ≡ Circle.with_sign (sign_of x) v }
{
    if is_negative(x) { -v } else { v }
}

pub fn sine(x: f64) -> f64
    ensures { result ≡ Circle.sine_of x }
{
    with_sign(x, size_sine(abs(x)))
}

pub fn cosine(x: f64) -> f64
    ensures { result ≡ Circle.cosine_of x }
{
    size_cosine(abs(x))
}

// Sine and cosine with one reduction.
pub fn sine_cosine(x: f64) -> SineCosine
    ensures { result ≡ Circle.pair_of x }
{
    let p = size_pair(abs(x));
    SineCosine {
        sine: with_sign(x, p.sine),
        cosine: p.cosine,
    }
}
