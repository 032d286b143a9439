// The walk back through the parents, and the dibit that comes of it.
ghost use Rattle.std.specs.Prelude.{◌≡◌, ◌<◌, ◌%◌, length};
ghost use Rattle.answers.specs.Walk.{stored_of, state_before_of, Table, Earlier, dibit_of, with_record_of, decided_of, walked_of};

use super::PARENTS;
use super::soft::{Soft, agreed};
use channels::STATES;

// A dibit's value, and the reliabilities of its higher and lower bit.
#[derive(Clone, Copy)]
pub struct Dibit {
    pub value: u8,
    pub high: u8,
    pub low: u8,
}

// The symbol that the walk ended at, or the one before if there was no walk, where there is one; and
// the dibit, none while the step is silent.
#[derive(Clone, Copy)]
pub struct Walked {
    pub previous: Option<usize>,
    pub answer: Option<Dibit>,
}

// A step's parents, put in their row.
pub fn store(parents: &mut [u8; PARENTS], write: usize, row: &[u8; STATES])
    requires { (write < 32) × (length parents.old ≡ 2048) }
    ensures { parents.new ≡ stored_of parents.old write row.now }
{
    let from = 64 * write;
    for s in 0..64 {
        parents[from + s] = row[s];
    }
}

// The state of 31 steps before the one stored at `newest`, from that step's state `best`.
fn state_before(parents: &[u8; PARENTS], newest: usize, best: usize) -> usize
    requires { (newest < 32) × (best < 64) × Table parents.now }
    ensures { result ≡ state_before_of parents.now newest best }
{
    let mut state = best;
    for k in 0..31 {
        let row = (newest + 32 - k) % 32;
        state = parents[64 * row + state] as usize;
    }
    state
}

// The dibit of a turn by so many quarters.
fn dibit_of(quarters: usize) -> u8
    requires { quarters < 4 }
    ensures { result ≡ dibit_of quarters }
{
    if quarters == 0 {
        0
    } else if quarters == 1 {
        1
    } else if quarters == 2 {
        3
    } else {
        2
    }
}

// A dibit with the reliabilities that its step's record gives.
fn with_record(value: u8, soft: Option<Soft>) -> Dibit
    ensures { result ≡ with_record_of value soft }
{
    let Some(s) = soft else {
        return Dibit {
            value,
            high: 0,
            low: 0,
        };
    };
    Dibit {
        value,
        high: agreed(s.high_sign, value / 2 % 2 == 1, s.high_reliability),
        low: agreed(s.low_sign, value % 2 == 1, s.low_reliability),
    }
}

// The first symbol of all has none before it to differ from.
fn decided(current: usize, previous: Option<usize>, soft: Option<Soft>) -> Dibit
    requires { (current < 4) × Earlier previous }
    ensures { result ≡ decided_of current previous soft }
{
    let Some(last) = previous else {
        return Dibit {
            value: 0,
            high: 0,
            low: 0,
        };
    };
    with_record(dibit_of((current + 4 - last) % 4), soft)
}

// The answer of the step stored at `newest`, where `filled` steps before it are held.
pub fn walk(
    parents: &[u8; PARENTS],
    newest: usize,
    filled: usize,
    best: usize,
    previous: Option<usize>,
    oldest: Option<Soft>,
) -> Walked
    requires { (newest < 32) × (best < 64) × Table parents.now × Earlier previous }
    ensures { result ≡ walked_of parents.now newest filled best previous oldest }
{
    if filled < 31 {
        return Walked {
            previous,
            answer: None,
        };
    }
    let current = state_before(parents, newest, best) % 4;
    Walked {
        previous: Some(current),
        answer: Some(decided(current, previous, oldest)),
    }
}
