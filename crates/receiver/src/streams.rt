// A block of samples through the receiver, whichever streams are asked for.
ghost use Rattle.std.specs.Prelude.{◌≡◌, true, ◌≤◌, length, OnOk, IfOk};
ghost use Rattle.receiver.specs.Block.{rooms_of, NoneLent, room_of, outcome_now, block_of};
ghost use Rattle.receiver.specs.Admitted.{admitted_of};

use super::block::Block;
use chain::{ChainPlanes, Chained};
use checks::block::judged;
use checks::refusal::Refusal;
use oscillator::is_conjugated;
use receiver_state::state::{Receiver, snapshot_of};
use run::{Running, run};

// The room that check 6 looks at: where both streams are asked for, the shorter of their two.
fn room(both: bool, first: usize, other: usize) -> usize
    ensures { result ≡ room_of both first other }
{
    if both { first.min(other) } else { first }
}

// An array is as long as its type says. Nothing runs here: the call is made for what it ensures.
fn sized<T: Copy, const N: usize>(xs: &[T; N])
    ensures { length xs.now ≡ N }
{}

// The planes of a state are as long as `run` asks, which nothing else says of arrays deep behind a reference.
fn planes_sized(planes: &ChainPlanes)
    ensures real { length planes.now.recovery.keeper.real ≡ 64 }
    ensures imaginary { length planes.now.recovery.keeper.imaginary ≡ 64 }
    ensures channel_real { length planes.now.decisions.channels.real ≡ 256 }
    ensures channel_imaginary { length planes.now.decisions.channels.imaginary ≡ 256 }
    ensures costs { length planes.now.decisions.costs ≡ 64 }
    ensures parents { length planes.now.decisions.parents ≡ 2048 }
{
    sized(&planes.recovery.keeper.real);
    sized(&planes.recovery.keeper.imaginary);
    sized(&planes.decisions.channels.real);
    sized(&planes.decisions.channels.imaginary);
    sized(&planes.decisions.costs);
    sized(&planes.decisions.parents);
}

// Takes a block: pairs of floats in; dibits, and two reliabilities for each, out. The steps work on the
// state's own planes. Where only one stream is asked for, no room is lent to the other.
pub fn take_any(
    r: &mut Receiver,
    table: &[f32],
    samples: &[f32],
    dibits: &mut [u8],
    reliabilities: &mut [u8],
    others: &mut [u8],
    other_reliabilities: &mut [u8],
    both: bool,
) -> Result<Block, Refusal>
    requires { NoneLent (rooms_of both dibits.old reliabilities.old others.old other_reliabilities.old) }
    ensures same { outcome_now result r.new dibits.new reliabilities.new others.new other_reliabilities.new
        ≡ block_of r.old table.now samples.now
        (rooms_of both dibits.old reliabilities.old others.old other_reliabilities.old) }
    ensures kept { OnOk result (admitted_of r.new ≡ true) }
    ensures most { IfOk result (λ b. b.count ≤ length samples.now) }
{
    let overload = judged(
        r.total,
        r.front,
        r.chain,
        r.second,
        &r.planes.decisions.parents,
        &r.ancestors,
        samples,
        table.len(),
        room(both, dibits.len(), others.len()),
        room(both, reliabilities.len(), other_reliabilities.len()),
    )?;
    let first = Running {
        front: r.front,
        chained: Chained {
            place: r.chain,
            records: r.records,
            second: r.second,
            written: 0,
        },
        from: 0,
    };
    planes_sized(&r.planes);
    let t = run(
        first,
        is_conjugated(r.chain.profile),
        samples,
        table,
        &mut r.ring,
        &mut r.planes,
        &mut r.memory,
        &mut r.ancestors,
        dibits,
        reliabilities,
        others,
        other_reliabilities,
        both,
    );
    let after = t.chained;
    r.total += (samples.len() / 2) as u64;
    r.front = t.front;
    r.chain = after.place;
    r.records = after.records;
    r.second = after.second;
    Ok(Block {
        count: after.written,
        overload,
        snapshot: snapshot_of(after.place),
    })
}
