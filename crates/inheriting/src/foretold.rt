// The parents' inverses one symbol on, into a room of lanes, for an input that is reliable.
ghost use Rattle.std.specs.Prelude.{◌≡◌, ◌+◌, ◌*◌, ◌<◌, get_or};
ghost use Rattle.channels.specs.Channels.{Parents};
ghost use Rattle.least_squares.specs.Lanes.{lanes_of, inverse_of};
ghost use Rattle.least_squares.specs.LeastSquares.{foretold_of};
ghost use Rattle.inheriting.specs.Inheriting.{here_of, right_of, below_of, across_of, put_four, quarters_put, foretold_put};

use super::places::{are_alike, place_of};
use channels::STATES;
use complex::Complex32;
use least_squares::{ALL, INVERSES};

// A number of the upper left quarter of an inverse one symbol on, from its place: the upper rows take the
// lower ones, and then the left columns the right ones.
fn here(old: &[f32; ALL], a: usize) -> Complex32
    requires { a + 144 < 4096 }
    ensures { result ≡ here_of old.now a }
{
    Complex32 {
        real: (old[a] + old[a + 128]) + (old[a + 16] + old[a + 144]),
        imaginary: (old[a + 4096] + old[a + 128 + 4096])
            + (old[a + 16 + 4096] + old[a + 144 + 4096]),
    }
}

// The one right of it, in the upper right quarter.
fn right(old: &[f32; ALL], a: usize) -> Complex32
    requires { a + 144 < 4096 }
    ensures { result ≡ right_of old.now a }
{
    Complex32 {
        real: old[a + 16] + old[a + 144],
        imaginary: old[a + 16 + 4096] + old[a + 144 + 4096],
    }
}

// The one below it, in the lower left quarter.
fn below(old: &[f32; ALL], a: usize) -> Complex32
    requires { a + 144 < 4096 }
    ensures { result ≡ below_of old.now a }
{
    Complex32 {
        real: old[a + 128] + old[a + 144],
        imaginary: old[a + 128 + 4096] + old[a + 144 + 4096],
    }
}

// The one across, in the lower right quarter.
fn across(old: &[f32; ALL], a: usize) -> Complex32
    requires { a + 144 < 4096 }
    ensures { result ≡ across_of old.now a }
{
    Complex32 {
        real: old[a + 144],
        imaginary: old[a + 144 + 4096],
    }
}

// Four numbers side by side, into the lanes from the place `at` on.
fn put_four(
    x: Complex32,
    y: Complex32,
    z: Complex32,
    w: Complex32,
    at: usize,
    room: &mut [f32; INVERSES],
)
    requires { at + 3 < 1024 }
    ensures { room.new ≡ put_four 1024 room.old at x y z w }
{
    room[at] = x.real;
    room[at + 1024] = x.imaginary;
    room[at + 1] = y.real;
    room[at + 1 + 1024] = y.imaginary;
    room[at + 2] = z.real;
    room[at + 2 + 1024] = z.imaginary;
    room[at + 3] = w.real;
    room[at + 3 + 1024] = w.imaginary;
}

// A number of four inverses, from the places a, b, c and d on, in all four quarters.
fn foretell_four(
    old: &[f32; ALL],
    a: usize,
    b: usize,
    c: usize,
    d: usize,
    at: usize,
    room: &mut [f32; INVERSES],
)
    requires { (a + 144 < 4096) × (b + 144 < 4096) × (c + 144 < 4096) × (d + 144 < 4096) × (at + 579 < 1024) }
    ensures { room.new ≡ quarters_put old.now a b c d at room.old }
{
    let a_here = here(old, a);
    let b_here = here(old, b);
    let c_here = here(old, c);
    let d_here = here(old, d);
    let a_right = right(old, a);
    let b_right = right(old, b);
    let c_right = right(old, c);
    let d_right = right(old, d);
    let a_below = below(old, a);
    let b_below = below(old, b);
    let c_below = below(old, c);
    let d_below = below(old, d);
    let a_across = across(old, a);
    let b_across = across(old, b);
    let c_across = across(old, c);
    let d_across = across(old, d);
    put_four(a_here, b_here, c_here, d_here, at, room);
    put_four(a_right, b_right, c_right, d_right, at + 64, room);
    put_four(a_below, b_below, c_below, d_below, at + 512, room);
    put_four(a_across, b_across, c_across, d_across, at + 576, room);
}

// The same, where the four are one.
fn foretell_one(old: &[f32; ALL], a: usize, at: usize, room: &mut [f32; INVERSES])
    requires { (a + 144 < 4096) × (at + 579 < 1024) }
    ensures { room.new ≡ quarters_put old.now a a a a at room.old }
{
    let x = here(old, a);
    let y = right(old, a);
    let z = below(old, a);
    let w = across(old, a);
    put_four(x, x, x, x, at, room);
    put_four(y, y, y, y, at + 64, room);
    put_four(z, z, z, z, at + 512, room);
    put_four(w, w, w, w, at + 576, room);
}

// Four inverses, from the places a, b, c and d on, one symbol on and side by side into the room's lanes
// `to` to to + 3.
fn gather_four(
    old: &[f32; ALL],
    a: usize,
    b: usize,
    c: usize,
    d: usize,
    to: usize,
    room: &mut [f32; INVERSES],
)
    requires { (a + 252 < 4096) × (b + 252 < 4096) × (c + 252 < 4096) × (d + 252 < 4096) × (to < 13) }
    ensures { room.new ≡ foretold_put old.now a b c d to 16 room.old }
{
    for x in 0..16 {
        let k = 32 * (x / 4) + 4 * (x % 4);
        let at = 128 * (x / 4) + 16 * (x % 4);
        foretell_four(old, a + k, b + k, c + k, d + k, to + at, room);
    }
}

// The same, where the four are one.
fn gather_one(old: &[f32; ALL], a: usize, to: usize, room: &mut [f32; INVERSES])
    requires { (a + 252 < 4096) × (to < 13) }
    ensures { room.new ≡ foretold_put old.now a a a a to 16 room.old }
{
    for x in 0..16 {
        let k = 32 * (x / 4) + 4 * (x % 4);
        let at = 128 * (x / 4) + 16 * (x % 4);
        foretell_one(old, a + k, to + at, room);
    }
}

// The same, where the four are often one.
fn gather_family(
    old: &[f32; ALL],
    a: usize,
    b: usize,
    c: usize,
    d: usize,
    to: usize,
    room: &mut [f32; INVERSES],
)
    requires { (a + 252 < 4096) × (b + 252 < 4096) × (c + 252 < 4096) × (d + 252 < 4096) × (to < 13) }
    ensures { room.new ≡ foretold_put old.now a b c d to 16 room.old }
{
    if are_alike(a, b, c, d) {
        gather_one(old, a, to, room);
    } else {
        gather_four(old, a, b, c, d, to, room);
    }
}

// The inverses of the parents of the sixteen states from 16 g on, one symbol on, one to a lane.
pub fn take_foretold(old: &[f32; ALL], parents: &[u8; STATES], g: usize, room: &mut [f32; INVERSES])
    requires g_of_four { g < 4 }
    requires states { Parents parents.now }
    ensures { room.new ≡ lanes_of 1024 (λ l. foretold_of (inverse_of old.now (get_or parents.now (16 * g + l) 0))) }
{
    for m in 0..4 {
        let s = 16 * g + 4 * m;
        let a = place_of(parents[s] as usize);
        let b = place_of(parents[s + 1] as usize);
        let c = place_of(parents[s + 2] as usize);
        let d = place_of(parents[s + 3] as usize);
        gather_family(old, a, b, c, d, 4 * m, room);
    }
}
