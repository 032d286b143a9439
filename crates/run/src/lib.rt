// The run over a block's samples: a row of values from the front, the row through the chain, until the
// samples are used up.
#![tactic(auto)]

ghost use Rattle.std.specs.Prelude.{◌≡◌};
ghost use Rattle.run.specs.Run.{Given, Leaves, whole_run_of, Going, ReadyRun};

use answers::PARENTS;
use chain::{ChainPlanes, Chained};
use complex::Planes;
use front::{FrontPlace, ROW};
use resampler::pass::PLACES;

// What moves from row to row: the front's place, the chain's with how many dibits are written of each stream,
// and the sample that is next.
#[derive(Clone, Copy)]
pub struct Running {
    pub front: FrontPlace,
    pub chained: Chained,
    pub from: usize,
}

// Runs over all samples of a block from the first one on. The second stream's dibits and reliabilities are
// written where both are asked for; where it is not enabled its memory may be empty. The row that ends them goes to the chain by a
// call of its own: a function that is called twice stays out of the loop over the samples, which then
// has the processor's registers for itself.
pub fn run(
    first: Running,
    conjugated: bool,
    samples: &[f32],
    table: &[f32],
    ring: &mut Planes<PLACES>,
    planes: &mut ChainPlanes,
    memory: &mut [f32],
    ancestors: &mut [u8; PARENTS],
    dibits: &mut [u8],
    reliabilities: &mut [u8],
    others: &mut [u8],
    other_reliabilities: &mut [u8],
    both: bool,
) -> Running
    requires { Given first ring planes memory ancestors dibits reliabilities others other_reliabilities
        (ReadyRun both table.now samples.now) }
    ensures { Leaves first result ring planes memory ancestors dibits reliabilities others other_reliabilities
        (λ b a. (a ≡ whole_run_of conjugated table.now samples.now b)
        × Going conjugated table.now samples.now b a) }
{
    let n = samples.len() / 2;
    let mut row = Planes {
        real: [0.0f32; ROW],
        imaginary: [0.0f32; ROW],
    };
    let mut t = first;
    while t.from < n {
        let f = front::front(
            t.front,
            conjugated,
            samples,
            t.from,
            table,
            &mut ring.real,
            &mut ring.imaginary,
            &mut row.real,
            &mut row.imaginary,
        );
        let at = t.from + f.used;
        if n <= at {
            let c = chain::chain(
                t.chained,
                &row,
                f.made,
                planes,
                memory,
                ancestors,
                dibits,
                reliabilities,
                others,
                other_reliabilities,
                both,
            );
            return Running {
                front: f.place,
                chained: c,
                from: at,
            };
        }
        let c = chain::chain(
            t.chained,
            &row,
            f.made,
            planes,
            memory,
            ancestors,
            dibits,
            reliabilities,
            others,
            other_reliabilities,
            both,
        );
        t = Running {
            front: f.place,
            chained: c,
            from: at,
        };
    }
    t
}
