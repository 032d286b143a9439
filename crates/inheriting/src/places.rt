// Where the inverses of states begin.
ghost use Rattle.std.specs.Prelude.{◌≡◌, ◌+◌, ◌<◌};
ghost use Rattle.inheriting.specs.Inheriting.{place_of, alike_of};

// The first number of the inverse of the state p.
pub fn place_of(p: usize) -> usize
    requires { p < 64 }
    ensures same { result ≡ place_of p }
    ensures near { result + 252 < 4096 }
{
    256 * (p / 4) + p % 4
}

// Whether four places are one. Four states often have one parent, and where the input is not reliable they
// always do; their inverses are then read once.
pub fn are_alike(a: usize, b: usize, c: usize, d: usize) -> bool
    ensures { result ≡ alike_of a b c d }
{
    (a == b) & (a == c) & (a == d)
}
