// The inverses of a channel of which nothing is known: on the diagonal 4 for each tap and 0.01 for each
// drift, and 0 beside it, the same for every state.
ghost use Rattle.std.specs.Prelude.{◌≡◌};
ghost use Rattle.second.specs.Prior.{doubt_at, prior_at, number_at};
ghost use Rattle.drift_detector.specs.Detector.{fresh_memory};

use least_squares::ALL;

// How little is known of a tap, or of a drift.
fn doubt(row: usize) -> f32
    ensures { result ≡ doubt_at row }
{
    if row < 4 { 4.0 } else { 0.01 }
}

// The number of an inverse.
fn prior(row: usize, column: usize) -> f32
    ensures { result ≡ prior_at row column }
{
    if row == column { doubt(row) } else { 0.0 }
}

// What stands at a place of all states' inverses. Their imaginary parts, from 4,096 on, are 0.
fn number(place: usize) -> f32
    ensures { result ≡ number_at place }
{
    if place < 4096 {
        let entry = place / 4 % 64;
        prior(entry / 8, entry % 8)
    } else {
        0.0
    }
}

// The inverses of all states.
pub fn inverses() -> [f32; ALL]
    ensures { result ≡ fresh_memory.inverse }
{
    let mut inverse = [0.0; ALL];
    for k in 0..ALL {
        inverse[k] = number(k);
    }
    inverse
}
