// Runs the detector on each run of steps from standard input, from the run's own state, and writes a
// line for each step: the digest of its answer and of the whole state after it, or the answer itself,
// in the order of the list that the oracle prints.
#![tactic(auto)]

ghost use Rattle.lms_detector.specs.Ranges.{Ranged};

use answers::PARENTS;
use answers::soft::Records;
use channels::{CHANNELS, STATES};
use replay::{fill, record};
use replay_detector::{
    Request, decoded, fill_parents, made_place, made_records, read_step, started, stored, tell,
};
use sequence::step::DetectorPlace;

// Steps, as many as the run says or as there are.
fn run(
    q: Request,
    place: DetectorPlace,
    held: Records,
    real: &mut [f32; CHANNELS],
    imaginary: &mut [f32; CHANNELS],
    costs: &mut [f32; STATES],
    parents: &mut [u8; PARENTS],
)
    requires { Ranged place real.old imaginary.old costs.old parents.old }
{
    let mut p = place;
    let mut records = held;
    for _ in 0..q.count {
        let step = read_step();
        let d = lms_detector::step(
            p,
            step.input,
            step.reliable,
            answers::soft::oldest(records, p.write),
            real,
            imaginary,
            costs,
            parents,
        );
        records = stored(records, p.write, d);
        tell(q.asked, d, &[real, imaginary], costs, parents, records);
        p = d.place;
    }
}

fn answer(q: Request) {
    let start = started(q.start);
    let mut real = sequence::step::fresh_channels();
    let mut imaginary: [f32; CHANNELS] = [0.0; CHANNELS];
    let mut costs: [f32; STATES] = [0.0; STATES];
    let mut parents: [u8; PARENTS] = [0; PARENTS];
    let seed = fill(q.seed, start.floats, &mut real);
    let seed = fill(seed, start.floats, &mut imaginary);
    let seed = fill(seed, start.costs, &mut costs);
    let seed = fill_parents(seed, start.floats, &mut parents);
    let records = made_records(seed, start.floats);
    let place = made_place(start, records.seed);
    run(
        q,
        place.value,
        records.value,
        &mut real,
        &mut imaginary,
        &mut costs,
        &mut parents,
    );
}

fn main() {
    for head in std::iter::from_fn(record::<32>).take(1_000_000) {
        answer(decoded(&head));
    }
}
