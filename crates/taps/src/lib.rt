// The matched filter's 1,025 taps and their derivatives.
#![tactic(auto)]

ghost use Rattle.std.specs.Prelude.{◌≡◌, reverse};
ghost use Rattle.taps.specs.Taps.{both_tables};

mod table;

#[derive(Clone, Copy)]
pub struct Tables {
    pub taps: [f32; 1025],
    pub derivatives: [f32; 1025],
}

// Both tables. A mention of a constant table writes all of it, so a caller takes them once and lends
// them from there.
pub fn both_tables() -> Tables
    ensures same { result ≡ both_tables }
    ensures symmetric { reverse result.taps ≡ result.taps }
{
    Tables {
        taps: table::TAPS,
        derivatives: table::DERIVATIVES,
    }
}
