// Case 14: forty steps of a fresh detector, none of them reliable, whatever the symbols are.
ghost use Rattle.lms_detector.specs.Ranges.{Ranged};

use super::say::{number, text};
use super::seeded::point;
use answers::walk::Dibit;
use replay::next;
use replay_detector::stored;
use sequence::step::DetectorPlace;

// Silent steps before the first dibit, dibits of 0 with [0,0], and every other answer.
#[derive(Clone, Copy)]
struct Tally {
    silent: u64,
    zeros: u64,
    others: u64,
}

fn with_silent(t: Tally) -> Tally {
    if t.zeros == 0 && t.others == 0 {
        Tally {
            silent: std::num::wrapping_add_u64(t.silent, 1),
            zeros: t.zeros,
            others: t.others,
        }
    } else {
        with_other(t)
    }
}

fn with_zero(t: Tally) -> Tally {
    Tally {
        silent: t.silent,
        zeros: std::num::wrapping_add_u64(t.zeros, 1),
        others: t.others,
    }
}

fn with_other(t: Tally) -> Tally {
    Tally {
        silent: t.silent,
        zeros: t.zeros,
        others: std::num::wrapping_add_u64(t.others, 1),
    }
}

fn tallied(t: Tally, answer: Option<Dibit>) -> Tally {
    match answer {
        None => with_silent(t),
        Some(d) => {
            if d.value == 0 && d.high == 0 && d.low == 0 {
                with_zero(t)
            } else {
                with_other(t)
            }
        }
    }
}

fn detect(
    fresh: DetectorPlace,
    real: &mut [f32; 256],
    imaginary: &mut [f32; 256],
    costs: &mut [f32; 64],
    parents: &mut [u8; 2048],
) -> Tally
    requires { Ranged fresh real.old imaginary.old costs.old parents.old }
{
    let mut t = Tally {
        silent: 0,
        zeros: 0,
        others: 0,
    };
    let mut place = fresh;
    let mut records = sequence::step::fresh_records();
    let mut seed: u64 = 14;
    for _ in 0..40 {
        seed = next(seed);
        let write = place.write;
        let d = lms_detector::step(
            place,
            point(seed),
            false,
            answers::soft::oldest(records, write),
            &mut *real,
            &mut *imaginary,
            &mut *costs,
            &mut *parents,
        );
        records = stored(records, write, d);
        t = tallied(t, d.answer);
        place = d.place;
    }
    t
}

pub fn unreliable_steps() {
    let mut real = sequence::step::fresh_channels();
    let mut imaginary = [0.0; 256];
    let mut costs = [0.0; 64];
    let mut parents = [0; 2048];
    let fresh = sequence::step::fresh();
    let t = detect(fresh, &mut real, &mut imaginary, &mut costs, &mut parents);
    text(b"14 40 unreliable steps: silent");
    number(t.silent);
    text(b", then dibits of 0 [0,0]");
    number(t.zeros);
    text(b"; other answers");
    number(t.others);
    text(b"\n");
}
