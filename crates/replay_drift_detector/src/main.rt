// Runs the detector with the second tracker on each run of steps from standard input, from the run's
// own state, and writes a line for each step: the digest of its answer and of the whole state after
// it, or the answer itself, in the order of the list that the oracle prints.
#![tactic(auto)]

ghost use Rattle.drift_detector.specs.Ranges.{Ranged};
ghost use Rattle.drift_detector.specs.Lends.{Given};

use answers::PARENTS;
use answers::soft::Records;
use channels::{CHANNELS, STATES};
use drift_tracker::DRIFTS;
use least_squares::ALL;
use replay::{fill, record};
use replay_detector::{
    Request, decoded, fill_parents, made_place, made_records, read_step, started, stored, tell,
};
use sequence::step::DetectorPlace;

// Steps, as many as the run says or as there are.
fn run(
    q: Request,
    place: DetectorPlace,
    held: Records,
    real: &mut [f32; CHANNELS],
    imaginary: &mut [f32; CHANNELS],
    drift: &mut [f32; DRIFTS],
    inverse: &mut [f32; ALL],
    costs: &mut [f32; STATES],
    parents: &mut [u8; PARENTS],
)
    requires { Given real imaginary drift inverse (λ m. Ranged place m costs.old parents.old) }
{
    let mut p = place;
    let mut records = held;
    for _ in 0..q.count {
        let step = read_step();
        let mut next = [0.0; ALL];
        let d = drift_detector::step(
            p,
            step.input,
            step.reliable,
            answers::soft::oldest(records, p.write),
            real,
            imaginary,
            drift,
            inverse,
            &mut next,
            costs,
            parents,
        );
        *inverse = next;
        records = stored(records, p.write, d);
        tell(
            q.asked,
            d,
            &[real, imaginary, drift, inverse],
            costs,
            parents,
            records,
        );
        p = d.place;
    }
}

// The number e of an unknown channel's inverse: on its diagonal 4 for each tap, 0.01 for each drift.
fn prior(e: usize) -> f32 {
    if e % 9 > 0 {
        0.0
    } else if e < 36 {
        4.0
    } else {
        0.01
    }
}

// The fresh inverses of all states, four states side by side.
fn fresh_inverses() -> [f32; ALL] {
    let mut inverse = [0.0; ALL];
    for k in 0..4096 {
        inverse[k] = prior(k / 4 % 64);
    }
    inverse
}

fn answer(q: Request) {
    let start = started(q.start);
    let kind = start.floats;
    let mut real = sequence::step::fresh_channels();
    let mut imaginary: [f32; CHANNELS] = [0.0; CHANNELS];
    let mut drift: [f32; DRIFTS] = [0.0; DRIFTS];
    let mut inverse = fresh_inverses();
    let mut costs: [f32; STATES] = [0.0; STATES];
    let mut parents: [u8; PARENTS] = [0; PARENTS];
    let seed = fill(q.seed, kind, &mut real);
    let seed = fill(seed, kind, &mut imaginary);
    let seed = fill(seed, kind, &mut drift);
    let seed = fill(seed, start.inverses, &mut inverse);
    let seed = fill(seed, start.costs, &mut costs);
    let seed = fill_parents(seed, kind, &mut parents);
    let records = made_records(seed, kind);
    let place = made_place(start, records.seed);
    run(
        q,
        place.value,
        records.value,
        &mut real,
        &mut imaginary,
        &mut drift,
        &mut inverse,
        &mut costs,
        &mut parents,
    );
}

fn main() {
    for head in std::iter::from_fn(record::<32>).take(1_000_000) {
        answer(decoded(&head));
    }
}
