// Plays runs of samples from standard input through the mixer, and writes a line for each: the digest
// of every mixed sample and of the oscillator after it. The samples come from the run's seed.
#![tactic(auto)]

ghost use Rattle.std.specs.Prelude.{◌<◌};

use complex::Complex32;
use numbers::bits::{float, float32};
use numbers::compare::is_nan;
use oscillator::Oscillator;
use replay::{mixed, mixed_float, mixed_float32, print_line, word};

// A record: six words.
const RECORD: usize = 48;

// The oscillator after a sample, and the digest so far.
#[derive(Clone, Copy)]
struct Turn {
    oscillator: Oscillator,
    digest: u64,
}

fn random(s: u64) -> u64 {
    let a = s ^ (s << 13);
    let b = a ^ (a >> 7);
    b ^ (b << 17)
}

// A finite number of any size: an infinity's or a NaN's exponent becomes the one below.
fn finite(bits: u32) -> f32 {
    if bits % 0x8000_0000 >= 0x7f80_0000 {
        return float32(bits - 0x80_0000);
    }
    float32(bits)
}

fn part(s: u64, kind: u64) -> f32 {
    let bits = (s / 0x1_0000_0000) as u32;
    if kind == 0 {
        return std::num::nearest_u32_to_f32(bits / 256) / 8388608.0 - 1.0;
    }
    finite(bits)
}

fn mixed_oscillator(h: u64, o: Oscillator) -> u64 {
    mixed(
        mixed_float(mixed_float(h, o.real), o.imaginary),
        o.renormalize as u64,
    )
}

// A sample through the lent oscillator: what it left, and the digest with both. A NaN is no sample.
fn sampled(h: u64, o: Oscillator, real: f32, imaginary: f32, conjugated: bool) -> Turn
    requires { o.renormalize < 4096 }
    ensures { result.oscillator.renormalize < 4096 }
{
    if is_nan(real) {
        return Turn {
            oscillator: o,
            digest: h,
        };
    }
    if is_nan(imaginary) {
        return Turn {
            oscillator: o,
            digest: h,
        };
    }
    let s = oscillator::stepped(o, Complex32 { real, imaginary }, conjugated);
    let so_far = mixed_float32(mixed_float32(h, s.value.real), s.value.imaginary);
    Turn {
        oscillator: s.oscillator,
        digest: mixed_oscillator(so_far, s.oscillator),
    }
}

// Where a run starts.
fn started(before: Oscillator, record: &[u8; 48], first: u64) -> Oscillator
    requires { before.renormalize < 4096 }
    ensures { result.renormalize < 4096 }
{
    let kind = first % 256;
    if kind == 0 {
        return oscillator::fresh(float(word(record, 16)), float(word(record, 24)));
    }
    if kind == 1 {
        return Oscillator {
            real: float(word(record, 16)),
            imaginary: float(word(record, 24)),
            step_real: float(word(record, 32)),
            step_imaginary: float(word(record, 40)),
            renormalize: (first / 0x100_0000 % 4096) as usize,
        };
    }
    before
}

// A run of so many steps: the digest is printed, and the oscillator comes back.
fn run(before: Oscillator, seed: u64, steps: u64, kind: u64, conjugated: bool) -> Oscillator
    requires { before.renormalize < 4096 }
    ensures { result.renormalize < 4096 }
{
    let mut o = before;
    let mut h: u64 = 0;
    let mut s = seed;
    for _ in 0..steps {
        let first = random(s);
        let second = random(first);
        let t = sampled(h, o, part(first, kind), part(second, kind), conjugated);
        h = t.digest;
        o = t.oscillator;
        s = second;
    }
    print_line(h, 16);
    o
}

fn played(before: Oscillator, record: &[u8; 48]) -> Oscillator
    requires { before.renormalize < 4096 }
    ensures { result.renormalize < 4096 }
{
    let first = word(record, 0);
    let o = started(before, record, first);
    let steps = first / 0x100_0000_0000;
    run(
        o,
        word(record, 8),
        steps,
        first / 65536 % 256,
        first / 256 % 256 == 1,
    )
}

fn main() {
    let mut o = oscillator::fresh(9600.0, 0.0);
    let mut record = [0u8; 48];
    for _ in 0..1000000 {
        if io::read_full(0, &mut record) < RECORD {
            break;
        }
        o = played(o, &record);
    }
}
