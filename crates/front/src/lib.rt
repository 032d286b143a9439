// The front: samples are mixed, decimated and resampled into a row of values, 19,200 a second.
#![tactic(auto)]

ghost use Rattle.std.specs.Prelude.{◌≡◌, ◌+◌, ◌-◌, ◌*◌, ◌/◌, ◌^◌, ◌<◌, ◌≤◌, length};
ghost use Rattle.oscillator.specs.Oscillator.{Number};
ghost use Rattle.resampler.specs.Admitted.{Admitted as RingAdmitted};
ghost use Rattle.resampler.specs.Pass.{values_of};
ghost use Rattle.front.specs.Front.{gathered_of, gather_of, drawn_of, laid_of, offered_of, advanced_of, filled_of, start_of};
ghost use Rattle.front.specs.Admitted.{admitted_of, Admitted, Numbers, CallKeeps, Drew, Offer, Moved};
ghost use Rattle.front.specs.Lends.{LeavesRow, LeavesOffer, Leaves};

use complex::Complex32;
use decimator::{Decimator, Parts};
use oscillator::Oscillator;
use resampler::pass::{PLACES, Passed, Resampler};

// Values that a row has room for.
pub const ROW: usize = 256;

// A row that holds more values than this has no room for the two that a sample can make.
const ROOM: usize = 254;

// Where the front stands between two samples; the ring's two planes are lent beside it.
#[derive(Clone, Copy)]
pub struct FrontPlace {
    pub oscillator: Oscillator,
    pub decimator: Decimator,
    pub resampler: Resampler,
}

// The front after a call, how many samples it used, and how many values it made of them.
#[derive(Clone, Copy)]
pub struct Fronted {
    pub place: FrontPlace,
    pub used: usize,
    pub made: usize,
}

// What moves with every sample.
#[derive(Clone, Copy)]
pub struct Gathering {
    pub oscillator: Oscillator,
    pub integrators: Parts,
}

// After a run of samples: how many they were, and what the decimator gave for the last.
#[derive(Clone, Copy)]
pub struct Drawn {
    pub oscillator: Oscillator,
    pub decimator: Decimator,
    pub output: Option<Complex32>,
    pub run: usize,
}

// A resampler, and how many values its row holds.
#[derive(Clone, Copy)]
pub struct Offering {
    pub resampler: Resampler,
    pub made: usize,
}

// Whether this front may be run, be it from a setup or handed in.
pub fn is_admitted(p: FrontPlace) -> bool
    ensures { result ≡ admitted_of p }
{
    oscillator::is_admitted(p.oscillator)
        & (decimator::is_admitted(p.decimator) & resampler::pass::is_admitted(p.resampler))
}

// One sample: the oscillator is lent and turned, the integrators take what it made.
fn gathered(g: Gathering, conjugated: bool, sample: Complex32) -> Gathering
    requires number { Number sample }
    requires renormalize_bound { g.oscillator.renormalize < 4096 }
    ensures same { result ≡ gathered_of conjugated g sample }
    ensures kept { result.oscillator.renormalize < 4096 }
{
    let mut oscillator = g.oscillator;
    let z = oscillator::mix(&mut oscillator, sample, conjugated);
    Gathering {
        oscillator,
        integrators: decimator::gathered(g.integrators, z),
    }
}

// `count` samples from `from` on go into the integrators; the combs and the counter wait for the end of
// the run, so what a sample changes stays in registers.
fn gather(g: Gathering, conjugated: bool, samples: &[f32], from: usize, count: usize) -> Gathering
    requires numbers { Numbers samples.now }
    requires renormalize_bound { g.oscillator.renormalize < 4096 }
    requires count_in_bounds { from + count ≤ length samples.now / 2 }
    ensures { result ≡ gather_of conjugated samples.now from count g }
{
    let mut h = g;
    for i in 0..count {
        let sample = Complex32 {
            real: samples[2 * (from + i)],
            imaginary: samples[2 * (from + i) + 1],
        };
        h = gathered(h, conjugated, sample);
    }
    h
}

// At d = 1, one sample, which goes on as it is mixed.
fn single(p: FrontPlace, conjugated: bool, samples: &[f32], from: usize) -> Drawn
    requires admitted { Admitted p }
    requires decimation_bound { p.decimator.decimation ≤ 1 }
    requires numbers { Numbers samples.now }
    requires from_in_bounds { from < length samples.now / 2 }
    ensures { result ≡ drawn_of conjugated samples.now from (length samples.now / 2 - from) p }
{
    let sample = Complex32 {
        real: samples[2 * from],
        imaginary: samples[2 * from + 1],
    };
    let t = oscillator::stepped(p.oscillator, sample, conjugated);
    Drawn {
        oscillator: t.oscillator,
        decimator: p.decimator,
        output: Some(t.value),
        run: 1,
    }
}

// At d > 1, a run of samples into the integrators and, where it ends at a d-th sample, the combs' value.
fn several(p: FrontPlace, conjugated: bool, samples: &[f32], from: usize) -> Drawn
    requires admitted { Admitted p }
    requires lt_decimation { 1 < p.decimator.decimation }
    requires numbers { Numbers samples.now }
    requires from_in_bounds { from < length samples.now / 2 }
    ensures { result ≡ drawn_of conjugated samples.now from (length samples.now / 2 - from) p }
{
    let d = p.decimator;
    let needed = d.decimation - d.counter;
    let run = (samples.len() / 2 - from).min(needed);
    let start = Gathering {
        oscillator: p.oscillator,
        integrators: d.integrators,
    };
    let g = gather(start, conjugated, samples, from, run);
    if run < needed {
        return Drawn {
            oscillator: g.oscillator,
            decimator: Decimator {
                counter: d.counter + run,
                integrators: g.integrators,
                ..d
            },
            output: None,
            run,
        };
    }
    let e = decimator::decimate(d, g.integrators);
    Drawn {
        oscillator: g.oscillator,
        decimator: e.decimator,
        output: Some(e.value),
        run,
    }
}

// The next run of samples through mixer and decimator.
fn draw(p: FrontPlace, conjugated: bool, samples: &[f32], from: usize) -> Drawn
    requires admitted { Admitted p }
    requires numbers { Numbers samples.now }
    requires from_in_bounds { from < length samples.now / 2 }
    ensures same { result ≡ drawn_of conjugated samples.now from (length samples.now / 2 - from) p }
    ensures kept { Drew (length samples.now / 2 - from) p result }
{
    if p.decimator.decimation > 1 {
        several(p, conjugated, samples, from)
    } else {
        single(p, conjugated, samples, from)
    }
}

// The values of a pass go into the row.
fn laid(p: Passed, made: usize, row_real: &mut [f32; ROW], row_imaginary: &mut [f32; ROW]) -> usize
    requires { made ≤ 254 }
    ensures { LeavesRow made result row_real row_imaginary (λ row after. after ≡ laid_of (values_of p) row) }
{
    if p.count == 0 {
        return made;
    }
    row_real[made] = p.first.real;
    row_imaginary[made] = p.first.imaginary;
    if p.count == 1 {
        return made + 1;
    }
    row_real[made + 1] = p.second.real;
    row_imaginary[made + 1] = p.second.imaginary;
    made + 2
}

// A decimated value into the ring, and the values that it makes due into the row.
fn offered(
    r: Resampler,
    made: usize,
    output: Option<Complex32>,
    table: &[f32],
    ring_real: &mut [f32; PLACES],
    ring_imaginary: &mut [f32; PLACES],
    row_real: &mut [f32; ROW],
    row_imaginary: &mut [f32; ROW],
) -> Offering
    requires ring_admitted { RingAdmitted r }
    requires index_bound { r.index < 2 ^ 52 }
    requires arm_in_bounds { 32 * r.arm ≤ length table.now }
    requires made_bound { made ≤ 254 }
    ensures same { LeavesOffer (record { resampler = r; made = made }) result ring_real ring_imaginary row_real row_imaginary
        (λ before after. after ≡ offered_of table.now before output) }
    ensures kept { Offer r made result }
{
    let Some(value) = output else {
        return Offering { resampler: r, made };
    };
    let p = resampler::pass::resampled(r, value, table, &mut *ring_real, &mut *ring_imaginary);
    let now_made = laid(p, made, &mut *row_real, &mut *row_imaginary);
    Offering {
        resampler: p.resampler,
        made: now_made,
    }
}

// The next run of samples, and the values that it makes due.
fn advance(
    t: Fronted,
    conjugated: bool,
    samples: &[f32],
    from: usize,
    table: &[f32],
    ring_real: &mut [f32; PLACES],
    ring_imaginary: &mut [f32; PLACES],
    row_real: &mut [f32; ROW],
    row_imaginary: &mut [f32; ROW],
) -> Fronted
    requires admitted { Admitted t.place }
    requires numbers { Numbers samples.now }
    requires arm_in_bounds { 32 * t.place.resampler.arm ≤ length table.now }
    requires index_bound { t.place.resampler.index < 2 ^ 52 }
    requires made_bound { t.made ≤ 254 }
    requires used_in_bounds { from + t.used < length samples.now / 2 }
    ensures same { Leaves from t result ring_real ring_imaginary row_real row_imaginary
        (λ before after. after ≡ advanced_of conjugated table.now samples.now before) }
    ensures left { Leaves from t result ring_real ring_imaginary row_real row_imaginary
        (λ before after. filled_of conjugated table.now samples.now after
        ≡ filled_of conjugated table.now samples.now before) }
    ensures kept { Moved (length samples.now / 2 - (from + t.used)) t result }
{
    let s = draw(t.place, conjugated, samples, from + t.used);
    let used = t.used + s.run;
    let l = offered(
        t.place.resampler,
        t.made,
        s.output,
        table,
        &mut *ring_real,
        &mut *ring_imaginary,
        &mut *row_real,
        &mut *row_imaginary,
    );
    Fronted {
        place: FrontPlace {
            oscillator: s.oscillator,
            decimator: s.decimator,
            resampler: l.resampler,
        },
        used,
        made: l.made,
    }
}

// Takes samples from `from` on until they are used up or the row has no room for two more values.
pub fn front(
    place: FrontPlace,
    conjugated: bool,
    samples: &[f32],
    from: usize,
    table: &[f32],
    ring_real: &mut [f32; PLACES],
    ring_imaginary: &mut [f32; PLACES],
    row_real: &mut [f32; ROW],
    row_imaginary: &mut [f32; ROW],
) -> Fronted
    requires admitted { Admitted place }
    requires numbers { Numbers samples.now }
    requires arm_in_bounds { 32 * place.resampler.arm ≤ length table.now }
    requires from_bound { place.resampler.index + (length samples.now / 2 - from) ≤ 2 ^ 52 }
    requires from_in_bounds { from ≤ length samples.now / 2 }
    ensures same { Leaves from (start_of place) result ring_real ring_imaginary row_real row_imaginary
        (λ before after. after ≡ filled_of conjugated table.now samples.now before) }
    ensures kept { CallKeeps (length samples.now / 2 - from) place result }
{
    let end = samples.len() / 2;
    let mut t = Fronted {
        place,
        used: 0,
        made: 0,
    };
    while from + t.used < end {
        if t.made > ROOM {
            break;
        }
        t = advance(
            t,
            conjugated,
            samples,
            from,
            table,
            &mut *ring_real,
            &mut *ring_imaginary,
            &mut *row_real,
            &mut *row_imaginary,
        );
    }
    t
}
