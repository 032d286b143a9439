// The angle of a point: in f64, narrowed once.
ghost use Rattle.std.specs.Prelude.{◌≡◌};
ghost use Rattle.routines.specs.Angle as Angle;

use numbers::compare::{abs, is_finite, is_negative};
use numbers::narrow::{narrow, widen};

const QUARTER_PI: f64 = 0.7853981633974483;

const HALF_PI: f64 = 1.5707963267948966;

const PI: f64 = 3.141592653589793;

// The coefficients of the arctangent, by their names in docs/ROUTINES.md.
const A1: f64 = 0.3333333311109846;

const A2: f64 = 0.1999998422161122;

const A3: f64 = 0.14285320884396907;

const A4: f64 = 0.11106143436137916;

const A5: f64 = 0.09053629694283327;

const A6: f64 = 0.07510511847905117;

const A7: f64 = 0.06056957925537007;

const A8: f64 = 0.044179132673459395;

const A9: f64 = 0.026547812878493626;

const A10: f64 = 0.011778666898513148;

const A11: f64 = 0.0033264970930378273;

const A12: f64 = 0.0004406949014504446;

// The arctangent of t in 0..=1.
fn arc(t: f64) -> f64
    ensures { result ≡ Angle.arc_of t }
{
    let z = t * t;
    let p11 = A11 - z * A12;
    let p10 = A10 - z * p11;
    let p9 = A9 - z * p10;
    let p8 = A8 - z * p9;
    let p7 = A7 - z * p8;
    let p6 = A6 - z * p7;
    let p5 = A5 - z * p6;
    let p4 = A4 - z * p5;
    let p3 = A3 - z * p4;
    let p2 = A2 - z * p3;
    let p1 = A1 - z * p2;
    t * (1.0 - z * p1)
}

// The angle of the point (h, v) with both parts at least zero and no NaN.
fn quadrant_arc(v: f64, h: f64) -> f64
    ensures { result ≡ Angle.quadrant_arc v h }
{
    if v <= h {
        if h == 0.0 {
            0.0
        } else if is_finite(v) {
            arc(v / h)
        } else {
            QUARTER_PI
        }
    } else {
        HALF_PI - arc(h / v)
    }
}

// The angle a of the first quadrant, mirrored to the left where asked.
fn mirrored(a: f64, left: bool) -> f64
    ensures { result ≡ Angle.mirrored_of a left }
{
    if left { PI - a } else { a }
}

// The angle of the point (x, y), Rust's `y.atan2(x)`.
pub fn arctangent(y: f32, x: f32) -> f32
    ensures { result ≡ Angle.arctangent_of y x }
{
    let v = widen(y);
    if v != v {
        return y;
    }
    let h = widen(x);
    if h != h {
        return x;
    }
    let a = quadrant_arc(abs(v), abs(h));
    let r = narrow(mirrored(a, is_negative(h)));
    if is_negative(v) { -r } else { r }
}
