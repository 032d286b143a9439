// Case 13: how many outputs each of the first samples makes due. At 9,600 samples a second the
// decimator passes them on as they are.
ghost use Rattle.resampler.specs.Admitted.{Admitted};
ghost use Rattle.std.specs.Prelude.{◌≡◌};

use super::say::{number, text};
use super::seeded::point;
use replay::next;
use resampler::pass::Resampler;

// Fourteen samples, each with the count of its outputs.
fn pass(fresh: Resampler, table: &[f32; 18432])
    requires admitted { Admitted fresh }
    requires index_value { fresh.index ≡ 0 }
{
    let mut real = [0.0; 592];
    let mut imaginary = [0.0; 592];
    let mut r = fresh;
    let mut seed: u64 = 13;
    for k in 0..14u64 {
        seed = next(seed);
        let p = resampler::pass::resampled(r, point(seed), table, &mut real, &mut imaginary);
        number(p.count as u64);
        r = p.resampler;
    }
}

pub fn first_samples() {
    let dimensions = resampler::dimensions::sized(9600.0);
    let mut table = [0.0; 18432];
    resampler::design::write_table(dimensions.arm, dimensions.rate, &mut table);
    text(b"13 rate 9600, outputs of samples 1 to 14:");
    let fresh = resampler::dimensions::fresh(dimensions);
    pass(fresh, &table);
    text(b"\n");
}
