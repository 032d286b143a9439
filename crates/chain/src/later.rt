// The later stages over a row of symbols: decisions by the first stream and, where it is enabled, by the
// second, and the delivery of what both answer.
ghost use Rattle.std.specs.Prelude.{◌≡◌, ◌≤◌};
ghost use Rattle.delivery.specs.Rows.{row_of, room_row};
ghost use Rattle.chain.specs.Later.{said_row, Asks};
ghost use Rattle.chain.specs.LaterLaws.{AsksRooms};
ghost use Rattle.chain.specs.Lends.{GivenRooms, LeavesRooms, GivenLater, LeavesLater};

use super::DecisionsPlanes;
use answer_row::{BYTES, FLAGS};
use answers::PARENTS;
use complex::Planes;
use decisions::{Decided, decide};
use delivery::{Delivered, deliver};
use recovery::ROW;
use second::Second;

// The first stream's place and soft records, the second's, and the counts with how many dibits are written.
#[derive(Clone, Copy)]
pub struct LaterPlace {
    pub decided: Decided,
    pub second: Second,
    pub delivered: Delivered,
}

// Delivers the first stream's row and, where both are asked for, the second's: each has a dibit only where
// both have.
fn tell(
    first: Delivered,
    flags: &[bool; FLAGS],
    bytes: &[u8; BYTES],
    other_flags: &[bool; FLAGS],
    other_bytes: &[u8; BYTES],
    count: usize,
    dibits: &mut [u8],
    reliabilities: &mut [u8],
    others: &mut [u8],
    other_reliabilities: &mut [u8],
    both: bool,
) -> Delivered
    requires given_rooms { GivenRooms first dibits reliabilities others other_reliabilities (AsksRooms both count) }
    requires count_bound { count ≤ 256 }
    ensures { LeavesRooms first result dibits reliabilities others other_reliabilities
        (λ t room u other. (u ≡ row_of (record { flags = flags.entry.now; bytes = bytes.now }) other_flags.now count t)
        × (other ≡ room_row t.place.profile (record { flags = other_flags.now; bytes = other_bytes.now }) flags.entry.now count room)) }
{
    let t = deliver(
        first,
        flags,
        bytes,
        other_flags,
        count,
        dibits,
        reliabilities,
    );
    if both {
        deliver(
            first,
            other_flags,
            other_bytes,
            flags,
            count,
            others,
            other_reliabilities,
        );
    }
    t
}

// Takes the first `count` symbols of a row.
pub fn later(
    first: LaterPlace,
    symbols: &Planes<ROW>,
    reliable: &[bool; ROW],
    count: usize,
    planes: &mut DecisionsPlanes,
    memory: &mut [f32],
    ancestors: &mut [u8; PARENTS],
    dibits: &mut [u8],
    reliabilities: &mut [u8],
    others: &mut [u8],
    other_reliabilities: &mut [u8],
    both: bool,
) -> LaterPlace
    requires given_later { GivenLater first planes memory ancestors dibits reliabilities others other_reliabilities (Asks both count) }
    requires count_bound { count ≤ 256 }
    ensures { LeavesLater first result planes memory ancestors dibits reliabilities others other_reliabilities
        (λ b a. a ≡ said_row symbols.now.real symbols.now.imaginary reliable.now count b) }
{
    let mut flags = [false; FLAGS];
    let mut bytes = [0; BYTES];
    let decided = decide(
        first.decided,
        &symbols.real,
        &symbols.imaginary,
        reliable,
        count,
        &mut planes.channels.real,
        &mut planes.channels.imaginary,
        &mut planes.costs,
        &mut planes.parents,
        &mut planes.view.real,
        &mut planes.view.imaginary,
        &mut flags,
        &mut bytes,
    );
    if first.second.enabled {
        let mut other_flags = [false; FLAGS];
        let mut other_bytes = [0; BYTES];
        let second = second::decide(
            first.second,
            &symbols.real,
            &symbols.imaginary,
            reliable,
            count,
            memory,
            ancestors,
            &mut other_flags,
            &mut other_bytes,
        );
        let delivered = tell(
            first.delivered,
            &flags,
            &bytes,
            &other_flags,
            &other_bytes,
            count,
            dibits,
            reliabilities,
            others,
            other_reliabilities,
            both,
        );
        return LaterPlace {
            decided,
            second,
            delivered,
        };
    }
    let delivered = tell(
        first.delivered,
        &flags,
        &bytes,
        &flags,
        &bytes,
        count,
        dibits,
        reliabilities,
        others,
        other_reliabilities,
        both,
    );
    LaterPlace {
        decided,
        second: first.second,
        delivered,
    }
}
