// Delivery: a row of answers to dibits and reliabilities where the caller says. An answer is delivered only
// where the other stream's row has one too: it is labelled by the profile, counted, and written after what
// stands there.
#![tactic(auto)]

ghost use Rattle.std.specs.Prelude.{◌≡◌, ◌≤◌};
ghost use Rattle.delivery.specs.Rows.{row_of};
ghost use Rattle.delivery.specs.Ranges.{Asks};
ghost use Rattle.delivery.specs.Lends.{Given, Leaves};

mod step;

use answer_row::{BYTES, FLAGS, answer_at, is_locked_at, is_told_at};
use step::{paired, step};

// The profile, the dibits delivered since setup, and those of them that were delivered under lock.
#[derive(Clone, Copy)]
pub struct DeliveryPlace {
    pub profile: i32,
    pub symbols: u64,
    pub locked: u64,
}

// The place, and how many dibits are written.
#[derive(Clone, Copy)]
pub struct Delivered {
    pub place: DeliveryPlace,
    pub written: usize,
}

// Takes the first `count` answers of a row, and the flags of the row of the other stream, which may be the
// same. Of the dibits, and in pairs of the reliabilities, as many as `first` says stand there already; those
// of the row are written after them.
pub fn deliver(
    first: Delivered,
    flags: &[bool; FLAGS],
    bytes: &[u8; BYTES],
    others: &[bool; FLAGS],
    count: usize,
    dibits: &mut [u8],
    reliabilities: &mut [u8],
) -> Delivered
    requires given { Given first dibits reliabilities (Asks count) }
    requires count_bound { count ≤ 256 }
    ensures { Leaves first result dibits reliabilities
        (λ b a. (a ≡ row_of (record { flags = flags.entry.now; bytes = bytes.now }) others.now count b) × Asks 0 a) }
{
    let mut t = first;
    for i in 0..count {
        let answer = paired(answer_at(i, flags, bytes), is_told_at(i, others));
        let locked = is_locked_at(i, flags);
        t = step(t, answer, locked, dibits, reliabilities);
    }
    t
}
