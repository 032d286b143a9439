// A dibit as its profile labels it, and what it adds to a count.
#![tactic(auto)]

ghost use Rattle.std.specs.Prelude.{◌≡◌, ◌<◌};
ghost use Rattle.labels.specs.Labels.{rearranges, relabelled_of, labelled_of, most_symbols, counted_of};

use answers::walk::Dibit;

// Whether a profile's labels are rearranged: those of profile 1 alone.
pub fn is_rearranged(profile: i32) -> bool
    ensures { result ≡ rearranges profile }
{
    if profile == 1 { true } else { false }
}

// The higher bit is the old lower one, the lower bit the two combined.
fn relabelled(dibit: u8) -> u8
    ensures { result ≡ relabelled_of dibit }
{
    if dibit == 0 {
        0
    } else if dibit == 1 {
        3
    } else if dibit == 2 {
        1
    } else {
        2
    }
}

// The reliabilities go with the bits: the combined one is as good as the worse of the two.
pub fn labelled(rearranged: bool, answer: Option<Dibit>) -> Option<Dibit>
    ensures { result ≡ labelled_of rearranged answer }
{
    let d = answer?;
    if rearranged {
        return Some(Dibit {
            value: relabelled(d.value),
            high: d.low,
            low: d.high.min(d.low),
        });
    }
    answer
}

// One more for a dibit that counts.
pub fn counted(count: u64, answer: Option<Dibit>, counts: bool) -> u64
    requires { count < most_symbols }
    ensures { result ≡ counted_of count answer counts }
{
    if answer.is_none() {
        return count;
    }
    if counts { count + 1 } else { count }
}
