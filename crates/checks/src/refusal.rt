// Why a call is refused.
ghost use Rattle.std.specs.Prelude.{◌≡◌};
ghost use Rattle.checks.specs.Refusal.{number_of, verdict_of};

#[derive(Clone, Copy, Debug, PartialEq, Eq)]
pub enum Refusal {
    // the sample rate
    Rate,
    // the channel's offset
    Offset,
    // the room for the taps
    Table,
    // how many samples
    Count,
    // a sample that is not finite
    Sample,
    // the room for dibits and reliabilities
    Room,
    // the state handed in
    State,
    // the sample file
    File,
}

// The refusal's number.
impl From<Refusal> for u32 {
    ghost from_gives = { λ r n. n ≡ number_of r };

    fn from(r: Refusal) -> u32 {
        match r {
            Refusal::Rate => 1,
            Refusal::Offset => 2,
            Refusal::Table => 3,
            Refusal::Count => 4,
            Refusal::Sample => 5,
            Refusal::Room => 6,
            Refusal::State => 7,
            Refusal::File => 8,
        }
    }
}

// The number of a call's answer: the refusal's, or 0 where the call is accepted.
pub fn number<T>(answer: &Result<T, Refusal>) -> u32
    ensures { result ≡ verdict_of answer.now }
{
    match answer {
        Ok(_) => 0,
        Err(refusal) => u32::from(*refusal),
    }
}
