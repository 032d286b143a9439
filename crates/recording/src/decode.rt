// The numbers of a recording, little-endian.
ghost use Rattle.std.specs.Prelude.{◌≡◌, ◌++◌, ◌+◌, ◌*◌, ◌≤◌, length, take, drop};
ghost use Rattle.std.specs.Float.{binary64, binary32};
ghost use Rattle.std.specs.Float.Ieee.{of_bits};
ghost use Rattle.recording.specs.Decode.{word_at, floats_of};

use numbers::bits::{decoded, decoded32};

// The N bytes from `at` on.
fn bytes<const N: usize>(source: &[u8], at: usize) -> [u8; N]
    requires { at + N ≤ length source.now }
    ensures { result ≡ take N (drop at source.now) }
{
    let mut found = [0; N];
    found.copy_from_slice(&source[at..at + N]);
    found
}

// The unsigned number of the four bytes from `at` on.
#[tactic(auto, using(crate::specs::DecodeLaws::four_are), unfolding(crate::specs::Decode::word_at))]
pub fn count(source: &[u8], at: usize) -> u32
    requires { at + 4 ≤ length source.now }
    ensures { result ≡ word_at 4 source.now at }
{
    u32::from_le_bytes(bytes(source, at))
}

// The float of the four bytes from `at` on.
#[tactic(auto, unfolding(crate::specs::Decode::word_at))]
pub fn float32(source: &[u8], at: usize) -> f32
    requires { at + 4 ≤ length source.now }
    ensures { result ≡ of_bits binary32 (word_at 4 source.now at) }
{
    decoded32(bytes(source, at))
}

// The float of the eight bytes from `at` on.
#[tactic(auto, unfolding(crate::specs::Decode::word_at))]
pub fn float(source: &[u8], at: usize) -> f64
    requires { at + 8 ≤ length source.now }
    ensures { result ≡ of_bits binary64 (word_at 8 source.now at) }
{
    decoded(bytes(source, at))
}

// The first n floats of four bytes each, at the start of the floats lent.
pub fn floats(source: &[u8], n: usize, out: &mut [f32])
    requires bytes_there { 4 * n ≤ length source.now }
    requires room { n ≤ length out.old }
    ensures { out.new ≡ floats_of n source.now ++ drop n out.old }
{
    for i in 0..n {
        out[i] = float32(source, 4 * i);
    }
}
