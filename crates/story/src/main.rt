// The customer's story: a strong neighbour, then silence, then a weak channel, at 384,000 samples a
// second (d 2, c 288). Writes a line for each dibit with its two reliabilities, and after each chapter
// what the front still holds of the neighbour, as oracle/src/story.rs lays it out. Every line is the
// Rust's, so that no dibit is marked reliable that the Rust does not mark. The silence has 2,048
// samples; the front has forgotten what was before it after (c + 3) d of them, 582 (`front-forgets`).
#![tactic(auto)]

ghost use Rattle.std.specs.Prelude.{◌≡◌, ◌≤◌, length};

use hearing::hear;

mod decimated;
mod hearing;
mod kept;

// The bytes of the sample file, 24 of settings and counts and then 24 blocks of 1,024 samples, and the
// floats of the blocks and of the first four.
const BYTES: usize = 196632;

const FLOATS: usize = 49152;

const NEIGHBOUR: usize = 8192;

fn silence(samples: &mut [f32], count: usize)
    requires { count ≤ length samples.old }
    ensures { length samples.new ≡ length samples.old }
{
    samples[..count].fill(0.0);
}

// The whole story, and then without the neighbour.
fn told(rate: f64, offset: f64, samples: &mut [f32])
    requires { length samples.old ≡ 49152 }
{
    let mut with = [0u64; 24];
    let mut without = [0u64; 24];
    hear(rate, offset, samples, true, &mut with);
    silence(&mut *samples, NEIGHBOUR);
    hear(rate, offset, samples, false, &mut without);
    kept::compare(&with, &without);
}

fn decoded(bytes: &[u8], samples: &mut [f32])
    requires bytes_len { length bytes.now ≡ 196632 }
    requires samples_len { length samples.old ≡ 49152 }
    ensures { length samples.new ≡ 49152 }
{
    recording::decode::floats(&bytes[24..], FLOATS, samples);
}

fn run(bytes: &[u8], samples: &mut [f32]) {
    if bytes.len() == BYTES {
        if samples.len() == FLOATS {
            decoded(bytes, &mut *samples);
            let rate = recording::decode::float(bytes, 4);
            let offset = recording::decode::float(bytes, 12);
            told(rate, offset, samples);
        }
    }
}

fn main() {
    let mut bytes = [0u8; 196632];
    let mut samples = [0.0; 49152];
    if io::read_full(0, &mut bytes) == BYTES {
        run(&bytes, &mut samples);
    }
}
