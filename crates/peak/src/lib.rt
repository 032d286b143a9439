// The peak keeper: the last 64 values, their peak and a slowly decaying reference, which together
// say how much to amplify the oldest value and whether it can be relied on. The ring stands in lent
// planes, with the values' envelopes in a third, so that only the newest is worked out anew.
#![tactic(auto)]

ghost use Rattle.std.specs.Prelude.{◌≡◌, ◌<◌};
ghost use Rattle.peak.specs.Lends.{Leaves};
ghost use Rattle.peak.specs.Peak.{KeeperStep, fresh_place, admitted_of, envelope_of, envelopes_of, top_of, followed_of, floor_of, gain_of, reliable_of, levelled_of, kept_of};
ghost use Rattle.peak.specs.Columns.{column_of, columns_of, quarter_of, highest_of};

use complex::{Complex32, scaled};
use numbers::compare::{abs, max, min};

// The values that are kept: at 19,200 a second 3.3 milliseconds, or 16 symbols.
pub const VALUES: usize = 64;

// The columns by which their peak is taken.
const COLUMNS: usize = 16;

// Where the next value goes, below 64; how many are in, at most 64; and the reference.
#[derive(Clone, Copy)]
pub struct KeeperPlace {
    pub head: usize,
    pub fill: usize,
    pub reference: f32,
}

// The oldest value at its gain, and whether it is reliable.
#[derive(Clone, Copy)]
pub struct Level {
    pub value: Complex32,
    pub reliable: bool,
}

// The place after a value, and the level; there is none while the keeper still fills.
#[derive(Clone, Copy)]
pub struct Kept {
    pub place: KeeperPlace,
    pub level: Option<Level>,
}

// A keeper that holds nothing.
pub fn fresh() -> KeeperPlace
    ensures { result ≡ fresh_place }
{
    KeeperPlace {
        head: 0,
        fill: 0,
        reference: 0.0,
    }
}

// Whether a place may be run, be it fresh or handed in: its head is below 64, its fill at most 64.
pub fn is_admitted(p: KeeperPlace) -> bool
    ensures { result ≡ admitted_of p }
{
    (p.head < VALUES) & (p.fill <= VALUES)
}

// About the size of a value: its larger part and 0.4 of its smaller.
fn envelope(real: f32, imaginary: f32) -> f32
    ensures { result ≡ envelope_of real imaginary }
{
    let a = abs(real);
    let b = abs(imaginary);
    max(a, b) + 0.4 * min(a, b)
}

// The envelopes of a ring's values.
pub fn envelopes(real: &[f32; VALUES], imaginary: &[f32; VALUES], out: &mut [f32; VALUES])
    ensures { out.new ≡ envelopes_of real.now imaginary.now }
{
    for k in 0..VALUES {
        out[k] = envelope(real[k], imaginary[k]);
    }
}

// The larger of a peak and an envelope, which may be a NaN.
fn top(peak: f32, e: f32) -> f32
    ensures { result ≡ top_of peak e }
{
    if e > peak { e } else { peak }
}

// The peak of one column: the envelopes at k, 16 + k, 32 + k and 48 + k.
fn column(e: &[f32; VALUES], k: usize) -> f32
    requires { k < 16 }
    ensures { result ≡ column_of e.now k }
{
    top(top(top(top(0.0, e[k]), e[16 + k]), e[32 + k]), e[48 + k])
}

// The peaks of all columns.
fn columns(e: &[f32; VALUES], peaks: &mut [f32; COLUMNS])
    ensures { peaks.new ≡ columns_of e.now }
{
    for k in 0..COLUMNS {
        peaks[k] = column(e, k);
    }
}

// The peak of four columns.
fn quarter(p: &[f32; COLUMNS], k: usize) -> f32
    requires { k < 4 }
    ensures { result ≡ quarter_of p.now k }
{
    top(top(top(top(0.0, p[k]), p[4 + k]), p[8 + k]), p[12 + k])
}

// The largest of 64 envelopes, by columns that run side by side.
fn highest(e: &[f32; VALUES]) -> f32
    ensures { result ≡ highest_of e.now }
{
    let mut peaks = [0.0; COLUMNS];
    columns(e, &mut peaks);
    let low = top(quarter(&peaks, 0), quarter(&peaks, 1));
    let high = top(quarter(&peaks, 2), quarter(&peaks, 3));
    top(low, high)
}

// The peak, or the reference times 0.99995: in a second of 19,200 values without a peak it falls to
// 0.38 of what it was.
fn followed(peak: f32, reference: f32) -> f32
    ensures { result ≡ followed_of peak reference }
{
    max(peak, reference * 0.99995)
}

// A peak under 0.08 of the reference is too faint to rely on, and is amplified no further.
fn floor(reference: f32) -> f32
    ensures { result ≡ floor_of reference }
{
    reference * 0.08
}

// Whether a value at this peak can be relied on.
fn is_reliable(peak: f32, floor: f32) -> bool
    ensures { result ≡ reliable_of peak floor }
{
    (peak > 1e-12) & (peak >= floor)
}

// What brings the peak to 1, or the floor or 1e-12 where that is larger.
fn gain(peak: f32, floor: f32) -> f32
    ensures { result ≡ gain_of peak floor }
{
    1.0 / max(max(peak, floor), 1e-12)
}

// The oldest value at its gain, and the reference that follows the peak.
fn levelled(head: usize, reference: f32, oldest: Complex32, peak: f32) -> Kept
    ensures { result ≡ levelled_of head reference oldest peak }
{
    let next = followed(peak, reference);
    let least = floor(next);
    let level = Level {
        value: scaled(oldest, gain(peak, least)),
        reliable: is_reliable(peak, least),
    };
    let place = KeeperPlace {
        head,
        fill: VALUES,
        reference: next,
    };
    Kept {
        place,
        level: Some(level),
    }
}

// One value more, in the place of the oldest. The third plane holds the envelopes of the first two,
// before and after.
pub fn keep(
    place: KeeperPlace,
    value: Complex32,
    real: &mut [f32; VALUES],
    imaginary: &mut [f32; VALUES],
    sizes: &mut [f32; VALUES],
) -> Kept
    requires head_bound { place.head < 64 }
    requires sizes_value { sizes.old ≡ envelopes_of real.old imaginary.old }
    ensures same { Leaves real imaginary (λ ring after. ◌≡◌ {A = KeeperStep} (record { kept = result; ring = after }) (kept_of place value ring)) }
    ensures envelopes { sizes.new ≡ envelopes_of real.new imaginary.new }
{
    let at = place.head;
    real[at] = value.real;
    imaginary[at] = value.imaginary;
    sizes[at] = envelope(value.real, value.imaginary);
    let head = (at + 1) % VALUES;
    if place.fill < 63 {
        let filling = KeeperPlace {
            head,
            fill: place.fill + 1,
            ..place
        };
        return Kept {
            place: filling,
            level: None,
        };
    }
    let oldest = Complex32 {
        real: real[head],
        imaginary: imaginary[head],
    };
    levelled(head, place.reference, oldest, highest(sizes))
}
