// The inverses of the sixteen states of a group after a step.
ghost use Rattle.std.specs.Prelude.{◌≡◌, ◌+◌, ◌%◌, ◌<◌};
ghost use Rattle.least_squares.specs.Lanes.{state_at, in_group};
ghost use Rattle.settling.specs.Settling.{inverse_after};
ghost use Rattle.settling.specs.Layout.{trace_at, turned, prior_number, mended_of};

use super::quad::settle_quad;
use least_squares::limits::{is_bounded, is_usable, prior_of};
use least_squares::{ALL, EIGHTS, INVERSES, LANES};

// The sum of the diagonal's real parts, of the inverse whose first number stands at base.
fn trace(p: &[f32; ALL], base: usize) -> f32
    requires { base + 252 < 4096 }
    ensures { result ≡ trace_at p.now base }
{
    p[base]
        + p[base + 36]
        + p[base + 72]
        + p[base + 108]
        + p[base + 144]
        + p[base + 180]
        + p[base + 216]
        + p[base + 252]
}

// One inverse begins anew.
fn renew(base: usize, next: &mut [f32; ALL])
    requires base_of_lane { base % 256 < 4 }
    requires base_of_half { base < 4096 }
    ensures { next.new ≡ turned state_at (state_at base) prior_number next.old }
{
    for e in 0..64 {
        next[base + 4 * e] = prior_of(e);
        next[base + 4 * e + 4096] = 0.0;
    }
}

// Where the denominator was of no use or the trace has run away: rare, so a pass of its own.
fn mend(den: f32, base: usize, next: &mut [f32; ALL])
    requires base_of_lane { base % 256 < 4 }
    requires base_of_half { base < 4096 }
    ensures { next.new ≡ mended_of den base next.old }
{
    if is_usable(den) & is_bounded(trace(next, base)) {} else {
        renew(base, next);
    }
}

// The sixteen states of the group g, whose lanes stand side by side in the rooms: the inverse w less gain times
// row, and begun anew where the denominator is of no use.
pub fn settle_group(
    w: &[f32; INVERSES],
    gain: &[f32; EIGHTS],
    row: &[f32; EIGHTS],
    den: &[f32; LANES],
    g: usize,
    next: &mut [f32; ALL],
)
    requires { g < 4 }
    ensures { next.new ≡ in_group g (inverse_after w.now gain.now row.now den.now) next.old }
{
    for m in 0..4 {
        settle_quad(w, gain, row, 4 * m, 1024 * g + 256 * m, next);
    }
    for (l, &d) in den.iter().enumerate() {
        mend(d, 1024 * g + 256 * (l / 4) + l % 4, next);
    }
}
