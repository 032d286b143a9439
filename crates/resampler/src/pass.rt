// The ring, and the pass that delivers up to two outputs for a value that came in.
ghost use Rattle.std.specs.Prelude.{◌≡◌, ◌+◌, ◌-◌, ◌*◌, ◌%◌, ◌^◌, ◌<◌, ◌≤◌, length, slice_set};
ghost use Rattle.std.specs.Float.{nan};
ghost use Rattle.laws.specs.FloatSums.{In};
ghost use Rattle.laws.specs.Ring.{start};
ghost use Rattle.resampler.specs.Pass.{placed_of, waiting_of, filtered_of, emitted_of, delivered_of, pushed_of, resampled_of, sizes_ok, ranges_ok, admitted_of};
ghost use Rattle.resampler.specs.Loops.{run_of};
ghost use Rattle.resampler.specs.Admitted.{f0, far, Near, Dimensioned, Admitted, PassKeeps};
ghost use Rattle.resampler.specs.AdmittedLaws.{Passing};
ghost use Rattle.resampler.specs.Lends.{Leaves};

use complex::Complex32;

// The places of a plane that holds a ring: a ring has arm + 16, at most 576 + 16.
pub const PLACES: usize = 592;

// 2 to the power 52: so many values come in at most.
const LIMIT: u64 = 4503599627370496;

#[derive(Clone, Copy)]
pub struct Resampler {
    // taps an arm: 14 to 576
    pub arm: usize,
    // half of that, rounded down: an output's window starts so many values before its position
    pub half: usize,
    // values an output: 0.5 to 20
    pub step: f64,
    // how many values came in
    pub index: u64,
    // where the next output lies among them
    pub next: f64,
    // the ring's place for the next value
    pub write: usize,
}

// A position among the values that came in, and the arm that serves it.
#[derive(Clone, Copy)]
pub struct Place {
    pub position: u64,
    pub phase: usize,
}

// The outputs so far, and where the next one lies.
#[derive(Clone, Copy)]
pub struct Delivery {
    pub count: usize,
    pub first: Complex32,
    pub second: Complex32,
    pub next: f64,
}

// The resampler after a value, and the outputs that the value makes due: the first `count` of the two.
#[derive(Clone, Copy)]
pub struct Passed {
    pub resampler: Resampler,
    pub count: usize,
    pub first: Complex32,
    pub second: Complex32,
}

// Where an output lies: 64 x is exact, and its whole part, halved, is 32 x rounded half away from zero;
// phase 32 is 0 at the next position.
fn placed(x: f64) -> Place
    requires { In f0 far x }
    ensures same { result ≡ placed_of x }
    ensures near { Near result }
{
    let h = std::num::truncating_f64_to_u64(64.0 * x);
    let tick = h / 2 + h % 2;
    Place {
        position: tick / 32,
        phase: (tick % 32) as usize,
    }
}

// The next output needs a value that is not yet in.
fn is_waiting(r: Resampler, p: Place) -> bool
    requires dimensioned { Dimensioned r }
    requires near { Near p }
    ensures { result ≡ waiting_of r p }
{
    r.index < p.position + ((r.arm - r.half) as u64)
}

// The place after `at` in a ring.
fn next_place(at: usize, size: usize) -> usize
    requires { at < size }
    ensures { result ≡ (at + 1) % size }
{
    if at + 1 < size { at + 1 } else { 0 }
}

// The place of the oldest of the last `arm` values, in a ring of arm + 16.
fn oldest_place(write: usize, arm: usize) -> usize
    requires write_bound { write < arm + 16 }
    requires arm_bound { arm ≤ 576 }
    ensures { result ≡ start nan (arm + 16) write arm }
{
    if write < arm { write + 16 } else { write - arm }
}

// The sum `s` and, one after the other, the products of `count` places of the ring from `from` on with
// the taps of the table from `base` on.
fn summed(
    s: Complex32,
    reals: &[f32; PLACES],
    imaginaries: &[f32; PLACES],
    from: usize,
    table: &[f32],
    base: usize,
    count: usize,
) -> Complex32
    requires count_bound { from + count ≤ 592 }
    requires count_in_bounds { base + count ≤ length table.now }
    ensures { result ≡ run_of s reals.now imaginaries.now from table.now base count }
{
    let mut real = s.real;
    let mut imaginary = s.imaginary;
    for i in 0..count {
        let tap = table[base + i];
        real = real + reals[from + i] * tap;
        imaginary = imaginary + imaginaries[from + i] * tap;
    }
    Complex32 { real, imaginary }
}

// The arm of a phase over the last c values, the oldest first: two straight runs round the ring.
fn filtered(
    r: Resampler,
    phase: usize,
    table: &[f32],
    reals: &[f32; PLACES],
    imaginaries: &[f32; PLACES],
) -> Complex32
    requires dimensioned { Dimensioned r }
    requires phase_bound { phase < 32 }
    requires arm_in_bounds { 32 * r.arm ≤ length table.now }
    ensures { result ≡ filtered_of r table.now reals.now imaginaries.now phase }
{
    let zero = complex::zero();
    let arm = r.arm;
    let base = phase * arm;
    let oldest = oldest_place(r.write, arm);
    let straight = arm + 16 - oldest;
    if straight >= arm {
        return summed(zero, reals, imaginaries, oldest, table, base, arm);
    }
    let s = summed(zero, reals, imaginaries, oldest, table, base, straight);
    summed(
        s,
        reals,
        imaginaries,
        0,
        table,
        base + straight,
        arm - straight,
    )
}

// One output more, and the next one step on.
fn emitted(d: Delivery, step: f64, value: Complex32) -> Delivery
    requires { d.count < 2 }
    ensures { result ≡ emitted_of d step value }
{
    let count = d.count + 1;
    let next = d.next + step;
    if d.count == 0 {
        Delivery {
            count,
            first: value,
            next,
            ..d
        }
    } else {
        Delivery {
            count,
            second: value,
            next,
            ..d
        }
    }
}

// Outputs until one needs a value that is not yet in: its position is where the next pass goes on.
fn delivered(
    r: Resampler,
    table: &[f32],
    reals: &[f32; PLACES],
    imaginaries: &[f32; PLACES],
) -> Delivery
    requires dimensioned { Dimensioned r }
    requires passing { Passing r }
    requires arm_in_bounds { 32 * r.arm ≤ length table.now }
    ensures { result ≡ delivered_of r table.now reals.now imaginaries.now }
{
    let zero = complex::zero();
    let mut d = Delivery {
        count: 0,
        first: zero,
        second: zero,
        next: r.next,
    };
    loop {
        let p = placed(d.next);
        if is_waiting(r, p) {
            return d;
        }
        let v = filtered(r, p.phase, table, reals, imaginaries);
        d = emitted(d, r.step, v);
    }
}

// Whether the arm length, its half and the ring's place are in range.
fn has_sizes(r: Resampler) -> bool
    ensures { result ≡ sizes_ok r }
{
    if r.arm > 576 {
        return false;
    }
    (r.arm >= 14) & (r.half == r.arm / 2) & (r.write < r.arm + 16)
}

// Whether the count of values, the step and the next output's position are in range.
fn has_ranges(r: Resampler) -> bool
    ensures { result ≡ ranges_ok r }
{
    if r.index > LIMIT {
        return false;
    }
    let end = std::num::nearest_u64_to_f64(r.index + 600);
    (r.step >= 0.5) & (r.step <= 20.0) & (r.next >= 0.0) & (r.next <= end)
}

// Whether this resampler may be run, be it from a setup or handed in: in range, and nothing pending.
pub fn is_admitted(r: Resampler) -> bool
    ensures { result ≡ admitted_of r }
{
    if has_sizes(r) {
        if has_ranges(r) {
            return is_waiting(r, placed(r.next));
        }
    }
    false
}

// A value takes the ring's next place.
fn pushed(
    r: Resampler,
    value: Complex32,
    reals: &mut [f32; PLACES],
    imaginaries: &mut [f32; PLACES],
) -> Resampler
    requires dimensioned { Dimensioned r }
    requires index_bound { r.index < 2 ^ 52 }
    ensures state { result ≡ pushed_of r }
    ensures real { reals.new ≡ slice_set reals.old r.write value.real }
    ensures imaginary { imaginaries.new ≡ slice_set imaginaries.old r.write value.imaginary }
{
    reals[r.write] = value.real;
    imaginaries[r.write] = value.imaginary;
    Resampler {
        index: r.index + 1,
        write: next_place(r.write, r.arm + 16),
        ..r
    }
}

// A value in, and the outputs that it makes due.
pub fn resampled(
    r: Resampler,
    value: Complex32,
    table: &[f32],
    reals: &mut [f32; PLACES],
    imaginaries: &mut [f32; PLACES],
) -> Passed
    requires admitted { Admitted r }
    requires index_bound { r.index < 2 ^ 52 }
    requires arm_in_bounds { 32 * r.arm ≤ length table.now }
    ensures same { Leaves result reals imaginaries
        (λ real imaginary after. after ≡ resampled_of r value table.now real imaginary) }
    ensures kept { PassKeeps r result }
{
    let q = pushed(r, value, &mut *reals, &mut *imaginaries);
    let d = delivered(q, table, reals, imaginaries);
    Passed {
        resampler: Resampler { next: d.next, ..q },
        count: d.count,
        first: d.first,
        second: d.second,
    }
}
