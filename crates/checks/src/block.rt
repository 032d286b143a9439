// The checks of a block, in their order: 7, 3, 4, 6, 5.
ghost use Rattle.std.specs.Prelude.{◌≡◌, ◌≤◌, ◌^◌};
ghost use Rattle.checks.specs.Checks.{count_refused, room_refused, judged_now, later_of, stated_of};

use super::admitted::{LIMIT, is_admitted};
use super::refusal::Refusal;
use answers::PARENTS;
use chain::ChainPlace;
use front::FrontPlace;
use samples::measured;
use second::Second;

fn count_is_refused(total: u64, floats: usize) -> bool
    requires { total ≤ 2 ^ 52 }
    ensures { result ≡ count_refused total floats }
{
    let n = floats / 2;
    if n > 65536 {
        return true;
    }
    (floats % 2 == 1) | (total + (n as u64) > LIMIT)
}

fn room_is_refused(n: usize, dibits: usize, reliabilities: usize) -> bool
    requires { n ≤ 65536 }
    ensures { result ≡ room_refused n dibits reliabilities }
{
    (dibits < 2 * n + 4) | (reliabilities < 4 * n + 8)
}

// Checks 3, 4, 6 and 5, of an admitted state.
fn checked_block(
    total: u64,
    arm: usize,
    samples: &[f32],
    table: usize,
    dibits: usize,
    reliabilities: usize,
) -> Result<u32, Refusal>
    requires total_bound { total ≤ 2 ^ 52 }
    requires arm_bound { arm ≤ 576 }
    ensures { judged_now result ≡ later_of total arm samples.now table dibits reliabilities }
{
    if table < 32 * arm {
        return Err(Refusal::Table);
    }
    if count_is_refused(total, samples.len()) {
        return Err(Refusal::Count);
    }
    if room_is_refused(samples.len() / 2, dibits, reliabilities) {
        return Err(Refusal::Room);
    }
    let l = measured(samples);
    if l.finite {
        Ok(l.overload)
    } else {
        Err(Refusal::Sample)
    }
}

// Check 7 first; an accepted block's overload.
pub fn judged(
    total: u64,
    front: FrontPlace,
    chain: ChainPlace,
    second: Second,
    parents: &[u8; PARENTS],
    ancestors: &[u8; PARENTS],
    samples: &[f32],
    table: usize,
    dibits: usize,
    reliabilities: usize,
) -> Result<u32, Refusal>
    ensures { judged_now result
        ≡ stated_of total front chain second parents.now ancestors.now samples.now table dibits reliabilities }
{
    if !is_admitted(total, front, chain, second, parents, ancestors) {
        return Err(Refusal::State);
    }
    checked_block(
        total,
        front.resampler.arm,
        samples,
        table,
        dibits,
        reliabilities,
    )
}
