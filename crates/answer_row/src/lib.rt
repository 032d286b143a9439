// A row of answers, one for each symbol: what the detector answered, and whether the carrier is locked
// after the symbol. It lies in two arrays that the caller lends. Of symbol k, the flags have at 2k whether
// there is a dibit and at 2k + 1 whether the carrier is locked; the bytes have at 3k the dibit and after
// it the reliabilities of its higher and lower bit.
#![tactic(auto)]

ghost use Rattle.std.specs.Prelude.{◌≡◌, ◌<◌};
ghost use Rattle.answer_row.specs.AnswerRow.{put_of, answer_at, told_at, locked_at};
ghost use Rattle.answer_row.specs.Lends.{LeavesAnswers};

use answers::walk::Dibit;

// The two arrays' lengths: a row holds at most 256 answers.
pub const FLAGS: usize = 512;

pub const BYTES: usize = 768;

// Puts an answer, and whether the carrier is locked, into the row.
pub fn put(
    at: usize,
    answer: Option<Dibit>,
    locked: bool,
    flags: &mut [bool; FLAGS],
    bytes: &mut [u8; BYTES],
)
    requires { at < 256 }
    ensures { LeavesAnswers flags bytes (λ b a. a ≡ put_of b at answer locked) }
{
    flags[2 * at + 1] = locked;
    let Some(d) = answer else {
        flags[2 * at] = false;
        return;
    };
    flags[2 * at] = true;
    bytes[3 * at] = d.value;
    bytes[3 * at + 1] = d.high;
    bytes[3 * at + 2] = d.low;
}

// The answer to a symbol of the row.
pub fn answer_at(at: usize, flags: &[bool; FLAGS], bytes: &[u8; BYTES]) -> Option<Dibit>
    requires { at < 256 }
    ensures { result ≡ answer_at (record { flags = flags.entry.now; bytes = bytes.now }) at }
{
    if flags[2 * at] {
        return Some(Dibit {
            value: bytes[3 * at],
            high: bytes[3 * at + 1],
            low: bytes[3 * at + 2],
        });
    }
    None
}

// Whether there is a dibit for a symbol of the row.
pub fn is_told_at(at: usize, flags: &[bool; FLAGS]) -> bool
    requires { at < 256 }
    ensures { result ≡ told_at flags.now at }
{
    flags[2 * at]
}

// Whether the carrier is locked after a symbol of the row.
pub fn is_locked_at(at: usize, flags: &[bool; FLAGS]) -> bool
    requires { at < 256 }
    ensures { result ≡ locked_at flags.now at }
{
    flags[2 * at + 1]
}
