// A sample into the ring, and whether a symbol is due.
ghost use Rattle.std.specs.Prelude.{◌≡◌, ◌+◌, ◌-◌, ◌<◌, ◌≤◌, true, false};
ghost use Rattle.clock.specs.Clock.{dropped_of, timed_warm_of, warmed_of, timed_of, ticked_of};
ghost use Rattle.clock.specs.Ranges.{Admitted, Taken, After};
ghost use Rattle.clock.specs.Lends.{LeavesRing};

use crate::phase::ranged;
use crate::{ClockPlace, Due, Stepped};
use complex::Complex32;
use filter::RING;

// The place after a symbol whose windows began at `first`: the next begin four samples on, and
// samples before position 12 are dropped.
fn moved_on(c: ClockPlace, phase: f32, first: usize) -> ClockPlace
    requires start_below { c.start < 256 }
    requires windows_in { first + 73 ≤ c.count }
    requires first_most { first ≤ 13 }
    ensures { result ≡ dropped_of
        (record { start = c.start; count = c.count; position = first + 4; warm = true; phase = phase; rate = c.rate }) }
{
    let position = first + 4;
    let dropped = position.saturating_sub(12);
    ClockPlace {
        start: (c.start + dropped) % RING,
        count: c.count - dropped,
        position: position - dropped,
        warm: true,
        phase,
        ..c
    }
}

// A warm clock that has taken its sample: it waits, or its symbol is due. The windows take
// 33 + 2 * 20 samples.
fn timed_warm(c: ClockPlace) -> Stepped
    requires { Taken c }
    ensures { result ≡ timed_warm_of c }
{
    let t = ranged(c.phase);
    let first = c.position + t.ahead - 1;
    if c.count < first + 73 {
        return Stepped {
            place: c,
            due: None,
        };
    }
    let from = (c.start + first) % RING;
    let place = moved_on(c, t.phase, first);
    Stepped {
        place,
        due: Some(Due { arm: t.arm, from }),
    }
}

// A clock that has taken its sample: it waits, or its symbol is due. A cold one waits until 83 are in.
fn timed(c: ClockPlace) -> Stepped
    requires warm_taken { (c.warm ≡ true → Taken c) }
    requires cold_taken { (c.warm ≡ false → Taken (warmed_of c)) }
    ensures { result ≡ timed_of c }
{
    if c.warm {
        return timed_warm(c);
    }
    if c.count < 83 {
        return Stepped {
            place: c,
            due: None,
        };
    }
    timed_warm(ClockPlace {
        position: 6,
        warm: true,
        ..c
    })
}

// Takes a sample, and says whether a symbol is due.
pub fn ticked(
    c: ClockPlace,
    sample: Complex32,
    real: &mut [f32; RING],
    imaginary: &mut [f32; RING],
) -> Stepped
    requires { Admitted c }
    ensures same { LeavesRing real imaginary result (λ re im after. after ≡ ticked_of c sample re im) }
    ensures kept { After result.due result.place }
{
    let at = (c.start + c.count) % RING;
    real[at] = sample.real;
    imaginary[at] = sample.imaginary;
    timed(ClockPlace {
        count: c.count + 1,
        ..c
    })
}
