// A block of samples through the receiver: for one stream, or for both.
ghost use Rattle.std.specs.Prelude.{◌≡◌, true, [], ◌≤◌, length, OnOk, IfOk};
ghost use Rattle.receiver.specs.Block.{one, two, outcome_now, block_of};
ghost use Rattle.receiver.specs.Admitted.{admitted_of};
ghost use Rattle.receiver.specs.Told.{block_told};

use super::streams::take_any;
use checks::refusal::Refusal;
use receiver_state::state::{Receiver, Snapshot, zero_snapshot};

// How many dibits were written for each stream, and how many samples have a part at an end of what a
// 16-bit converter gives, or beyond it.
#[derive(Clone, Copy)]
pub struct Block {
    pub count: usize,
    pub overload: u32,
    pub snapshot: Snapshot,
}

// Takes a block for one stream. Where the second is enabled it runs too, and a dibit is given only where
// both have one. A refused block leaves the state and what was lent as they are.
pub fn take(
    r: &mut Receiver,
    table: &[f32],
    samples: &[f32],
    dibits: &mut [u8],
    reliabilities: &mut [u8],
) -> Result<Block, Refusal>
    ensures same { outcome_now result r.new dibits.new reliabilities.new [] []
        ≡ block_of r.old table.now samples.now (one dibits.old reliabilities.old) }
    ensures kept { OnOk result (admitted_of r.new ≡ true) }
    ensures most { IfOk result (λ b. b.count ≤ length samples.now) }
{
    take_any(
        r,
        table,
        samples,
        dibits,
        reliabilities,
        &mut [],
        &mut [],
        false,
    )
}

// Takes a block for both streams: before the second is enabled the first is written twice.
pub fn take_both(
    r: &mut Receiver,
    table: &[f32],
    samples: &[f32],
    dibits: &mut [u8],
    reliabilities: &mut [u8],
    others: &mut [u8],
    other_reliabilities: &mut [u8],
) -> Result<Block, Refusal>
    ensures same { outcome_now result r.new dibits.new reliabilities.new others.new other_reliabilities.new
        ≡ block_of r.old table.now samples.now
        (two dibits.old reliabilities.old others.old other_reliabilities.old) }
    ensures kept { OnOk result (admitted_of r.new ≡ true) }
    ensures most { IfOk result (λ b. b.count ≤ length samples.now) }
{
    take_any(
        r,
        table,
        samples,
        dibits,
        reliabilities,
        others,
        other_reliabilities,
        true,
    )
}

// What a block's answer tells: a refused one writes no dibit and counts no overload, and its lock report is
// of zeros.
pub fn told(answer: Result<Block, Refusal>) -> Block
    ensures { result ≡ block_told answer }
{
    answer.unwrap_or(Block {
        count: 0,
        overload: 0,
        snapshot: zero_snapshot(),
    })
}
