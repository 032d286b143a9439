// Whether a detector may be run, be it from a run or handed in: the tests of its place and of its
// parents.
ghost use Rattle.std.specs.Prelude.{◌≡◌};
ghost use Prim.Native.Nat as Nat;
ghost use Rattle.sequence.specs.Admitted.{is_symbol, admitted_of, largest_of, are_states};

use super::step::DetectorPlace;
use answers::{PARENTS, STEPS};

// The previous symbol is below 4, where there is one.
fn is_symbol(previous: Option<usize>) -> bool
    ensures { result ≡ is_symbol previous }
{
    let Some(s) = previous else {
        return true;
    };
    s < 4
}

// The row for the next step is below 32, at most 32 steps are held, and the previous symbol is one.
pub fn is_admitted(d: DetectorPlace) -> bool
    ensures { result ≡ admitted_of d }
{
    let ranges = (d.write < STEPS) & (d.filled <= STEPS);
    ranges & is_symbol(d.previous)
}

fn most(a: u8, b: u8) -> u8
    ensures { result ≡ Nat.max a b }
{
    if a < b { b } else { a }
}

fn largest(parents: &[u8; PARENTS]) -> u8
    ensures { result ≡ largest_of parents.now }
{
    let mut found = 0;
    for parent in parents {
        found = most(found, *parent);
    }
    found
}

// Every stored parent is a state: below 64.
pub fn are_states(parents: &[u8; PARENTS]) -> bool
    ensures { result ≡ are_states parents.now }
{
    largest(parents) < 64
}
