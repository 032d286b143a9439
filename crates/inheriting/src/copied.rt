// The parents' inverses as they are, for an input that is not reliable.
ghost use Rattle.std.specs.Prelude.{◌≡◌, ◌+◌, ◌*◌, ◌<◌, get_or};
ghost use Rattle.channels.specs.Channels.{Parents};
ghost use Rattle.least_squares.specs.Lanes.{inverse_of, in_group};
ghost use Rattle.inheriting.specs.Inheriting.{numbers_put, fours_put};

use super::places::{are_alike, place_of};
use channels::STATES;
use least_squares::ALL;

// The numbers at the places a, b, c and d, side by side from the place `at` on.
fn copy_number(
    old: &[f32; ALL],
    a: usize,
    b: usize,
    c: usize,
    d: usize,
    at: usize,
    next: &mut [f32; ALL],
)
    requires { (a < 4096) × (b < 4096) × (c < 4096) × (d < 4096) × (at + 3 < 4096) }
    ensures { next.new ≡ numbers_put old.now a b c d at next.old }
{
    let a_real = old[a];
    let b_real = old[b];
    let c_real = old[c];
    let d_real = old[d];
    let a_imaginary = old[a + 4096];
    let b_imaginary = old[b + 4096];
    let c_imaginary = old[c + 4096];
    let d_imaginary = old[d + 4096];
    next[at] = a_real;
    next[at + 4096] = a_imaginary;
    next[at + 1] = b_real;
    next[at + 1 + 4096] = b_imaginary;
    next[at + 2] = c_real;
    next[at + 2 + 4096] = c_imaginary;
    next[at + 3] = d_real;
    next[at + 3 + 4096] = d_imaginary;
}

// Four inverses, from the places a, b, c and d on, into those that begin at `to` to to + 3.
fn copy_four(
    old: &[f32; ALL],
    a: usize,
    b: usize,
    c: usize,
    d: usize,
    to: usize,
    next: &mut [f32; ALL],
)
    requires { (a + 252 < 4096) × (b + 252 < 4096) × (c + 252 < 4096) × (d + 252 < 4096) × (to + 255 < 4096) }
    ensures { next.new ≡ fours_put old.now a b c d to 64 next.old }
{
    for e in 0..64 {
        let k = 4 * e;
        copy_number(old, a + k, b + k, c + k, d + k, to + k, next);
    }
}

// The same, where the four are often one.
fn copy_family(
    old: &[f32; ALL],
    a: usize,
    b: usize,
    c: usize,
    d: usize,
    to: usize,
    next: &mut [f32; ALL],
)
    requires { (a + 252 < 4096) × (b + 252 < 4096) × (c + 252 < 4096) × (d + 252 < 4096) × (to + 255 < 4096) }
    ensures { next.new ≡ fours_put old.now a b c d to 64 next.old }
{
    if are_alike(a, b, c, d) {
        copy_four(old, a, a, a, a, to, next);
    } else {
        copy_four(old, a, b, c, d, to, next);
    }
}

// The inverses of the sixteen states from 16 g on are their parents'. The others stay.
pub fn inherit_inverses(old: &[f32; ALL], parents: &[u8; STATES], g: usize, next: &mut [f32; ALL])
    requires g_of_four { g < 4 }
    requires states { Parents parents.now }
    ensures { next.new ≡ in_group g (λ s. inverse_of old.now (get_or parents.now s 0)) next.old }
{
    for m in 0..4 {
        let s = 16 * g + 4 * m;
        let a = place_of(parents[s] as usize);
        let b = place_of(parents[s + 1] as usize);
        let c = place_of(parents[s + 2] as usize);
        let d = place_of(parents[s + 3] as usize);
        copy_family(old, a, b, c, d, 1024 * g + 256 * m, next);
    }
}
