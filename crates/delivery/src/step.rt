// One answer: labelled, counted and written.
ghost use Rattle.std.specs.Prelude.{◌≡◌, ◌<◌, ◌≤◌};
ghost use Rattle.delivery.specs.Delivery.{paired_of, told_of, answer_dibits, answer_pair, laid_in, delivered_of};
ghost use Rattle.delivery.specs.Ranges.{most_symbols, Roomy, Asks};
ghost use Rattle.delivery.specs.Lends.{GivenRoom, LeavesRoom, Given, Leaves};

use super::{Delivered, DeliveryPlace};
use answers::walk::Dibit;
use labels::{counted, is_rearranged, labelled};

// The place after an answer, and the answer as the profile labels it.
#[derive(Clone, Copy)]
pub struct Stepped {
    pub place: DeliveryPlace,
    pub answer: Option<Dibit>,
}

// An answer where the other stream has one too, and else silence.
pub fn paired(answer: Option<Dibit>, other: bool) -> Option<Dibit>
    ensures { result ≡ paired_of answer other }
{
    if other { answer } else { None }
}

// A dibit is counted, under lock too where the carrier is locked after its symbol.
fn told(p: DeliveryPlace, answer: Option<Dibit>, is_locked: bool) -> Stepped
    requires symbols_lt_most_symbols { p.symbols < most_symbols }
    requires locked_le_symbols { p.locked ≤ p.symbols }
    ensures { result ≡ told_of p answer is_locked }
{
    Stepped {
        place: DeliveryPlace {
            profile: p.profile,
            symbols: counted(p.symbols, answer, true),
            locked: counted(p.locked, answer, is_locked),
        },
        answer: labelled(is_rearranged(p.profile), answer),
    }
}

// A dibit and its two reliabilities, after those that are written.
fn noted(
    answer: Option<Dibit>,
    written: usize,
    dibits: &mut [u8],
    reliabilities: &mut [u8],
) -> usize
    requires { GivenRoom written dibits reliabilities (Roomy 1) }
    ensures { LeavesRoom written result dibits reliabilities (λ b a. a ≡ laid_in b (answer_dibits answer) (answer_pair answer)) }
{
    let Some(d) = answer else {
        return written;
    };
    dibits[written] = d.value;
    reliabilities[2 * written] = d.high;
    reliabilities[2 * written + 1] = d.low;
    written + 1
}

// One answer of a row, and whether the carrier is locked after its symbol.
pub fn step(
    t: Delivered,
    answer: Option<Dibit>,
    locked: bool,
    dibits: &mut [u8],
    reliabilities: &mut [u8],
) -> Delivered
    requires { Given t dibits reliabilities (Asks 1) }
    ensures { Leaves t result dibits reliabilities (λ b a. a ≡ delivered_of b answer locked) }
{
    let s = told(t.place, answer, locked);
    let written = noted(s.answer, t.written, dibits, reliabilities);
    Delivered {
        place: s.place,
        written,
    }
}
