// Runs the second tracker on each run of steps from standard input, from the run's own state, and writes
// a line for each step: the digest of the whole state after it, in the order of the list that the oracle
// prints.
#![tactic(auto)]

ghost use Rattle.std.specs.Prelude.{◌≡◌, ◌<◌, ◌≤◌, length};
ghost use Rattle.channels.specs.Channels.{Parents};
ghost use Rattle.replay_drift.specs.Sized.{Sized};

use channels::{CHANNELS, STATES};
use complex::Complex32;
use drift_tracker::DRIFTS;
use drift_tracker::follow::follow;
use drift_tracker::onward::advance;
use least_squares::ALL;
use least_squares::limits::prior_of;
use numbers::bits::float32;
use replay::{fill, mixed_plane, next, print_line, record, word};

// A run's head: seven words.
const HEAD: usize = 56;

#[derive(Clone, Copy)]
struct Request {
    asked: u64,
    seed: u64,
    taps: u64,
    inverses: u64,
    inputs: u64,
    steps: u64,
    places: u64,
}

fn decoded(head: &[u8]) -> Request
    requires { 56 ≤ length head.now }
{
    Request {
        asked: word(head, 0),
        seed: word(head, 8),
        taps: word(head, 16),
        inverses: word(head, 24),
        inputs: word(head, 32),
        steps: word(head, 40),
        places: word(head, 48),
    }
}

// The inverses of all states before the first step: the real parts, as each begins anew, and no imaginary ones.
fn fresh_inverses() -> [f32; ALL] {
    let mut inverse = [0.0; ALL];
    for k in 0..4096 {
        inverse[k] = prior_of(k % 256 / 4);
    }
    inverse
}

// Numbers of the inverses, as many as the run says: the place in the high half of a word, the pattern in
// the low half.
fn set_places(count: u64, inverse: &mut [f32; ALL])
    ensures { length inverse.new ≡ 8192 }
{
    for _ in 0..count {
        let mut bytes = [0u8; 8];
        io::read_full(0, &mut bytes);
        let w = word(&bytes, 0);
        let place = (w / 0x1_0000_0000 % 8192) as usize;
        inverse[place] = float32((w % 0x1_0000_0000) as u32);
    }
}

// One of the four states that can come before this one.
fn parent(state: usize, seed: u64) -> u8
    requires { state < 64 }
    ensures { result < 64 }
{
    (state / 4 + 16 * ((seed % 4) as usize)) as u8
}

// Parents from the seed, and the seed after them.
fn fill_parents(s: u64, parents: &mut [u8; STATES]) -> u64
    ensures { Parents parents.new }
{
    let mut seed = s;
    for i in 0..STATES {
        seed = next(seed);
        parents[i] = parent(i, seed);
    }
    seed
}

// Where the input is reliable the taps go on by their drift.
fn go_on(
    reliable: bool,
    real: &mut [f32; CHANNELS],
    imaginary: &mut [f32; CHANNELS],
    drift: &[f32; DRIFTS],
)
    requires { (length real.old ≡ 256) × (length imaginary.old ≡ 256) }
    ensures { (length real.new ≡ 256) × (length imaginary.new ≡ 256) }
{
    if !reliable {
        return;
    }
    advance(real, imaginary, drift);
}

// One step from the seed, and the seed after it.
fn step(
    asked: u64,
    kind: u64,
    s: u64,
    real: &mut [f32; CHANNELS],
    imaginary: &mut [f32; CHANNELS],
    drift: &mut [f32; DRIFTS],
    inverse: &mut [f32; ALL],
) -> u64
    requires { Sized real.old imaginary.old drift.old inverse.old }
    ensures { Sized real.new imaginary.new drift.new inverse.new }
{
    let mut parents = [0u8; STATES];
    let a = fill_parents(s, &mut parents);
    let mut prediction_real: [f32; STATES] = [0.0; STATES];
    let mut prediction_imaginary: [f32; STATES] = [0.0; STATES];
    let mut parts: [f32; 2] = [0.0; 2];
    let b = fill(a, kind, &mut prediction_real);
    let c = fill(b, kind, &mut prediction_imaginary);
    let d = next(fill(c, kind, &mut parts));
    let input = Complex32 {
        real: parts[0],
        imaginary: parts[1],
    };
    let reliable = asked == 0 || d % 4 != 0;
    go_on(reliable, real, imaginary, drift);
    let old = *inverse;
    follow(
        real,
        imaginary,
        drift,
        &old,
        inverse,
        &parents,
        &prediction_real,
        &prediction_imaginary,
        input,
        reliable,
    );
    d
}

fn tell(
    real: &[f32; CHANNELS],
    imaginary: &[f32; CHANNELS],
    drift: &[f32; DRIFTS],
    inverse: &[f32; ALL],
) {
    let taps = mixed_plane(mixed_plane(0, real), imaginary);
    print_line(mixed_plane(mixed_plane(taps, drift), inverse), 16);
}

// Steps, as many as the run says.
fn run(
    q: Request,
    s: u64,
    real: &mut [f32; CHANNELS],
    imaginary: &mut [f32; CHANNELS],
    drift: &mut [f32; DRIFTS],
    inverse: &mut [f32; ALL],
)
    requires { Sized real.old imaginary.old drift.old inverse.old }
{
    let mut seed = s;
    for _ in 0..q.steps {
        seed = step(q.asked, q.inputs, seed, real, imaginary, drift, inverse);
        tell(real, imaginary, drift, inverse);
    }
}

fn answer(q: Request) {
    let mut real = sequence::step::fresh_channels();
    let mut imaginary: [f32; CHANNELS] = [0.0; CHANNELS];
    let mut drift: [f32; DRIFTS] = [0.0; DRIFTS];
    let mut inverse = fresh_inverses();
    let a = fill(q.seed, q.taps, &mut real);
    let b = fill(a, q.taps, &mut imaginary);
    let c = fill(b, q.taps, &mut drift);
    let d = fill(c, q.inverses, &mut inverse);
    set_places(q.places, &mut inverse);
    run(q, d, &mut real, &mut imaginary, &mut drift, &mut inverse);
}

fn main() {
    for head in std::iter::from_fn(record::<HEAD>).take(1_000_000) {
        answer(decoded(&head));
    }
}
