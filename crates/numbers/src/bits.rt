// What bits stand for: floats by their patterns and by little-endian bytes, and 64 bits as a signed
// number.
ghost use Rattle.std.specs.Prelude.{◌≡◌, from_bits, to_bits};
ghost use Rattle.std.specs.Float.{binary32, binary64};
ghost use Rattle.numbers.specs.Bits.{little_endian, signed_of, unsigned_of};

// The pattern of x; of a NaN the one with only the highest digit set.
pub fn pattern(x: f64) -> u64
    ensures { result ≡ to_bits binary64 x }
{
    std::num::f64_to_bits_with_nan(x)
}

pub fn pattern32(x: f32) -> u32
    ensures { result ≡ to_bits binary32 x }
{
    std::num::f32_to_bits_with_nan(x)
}

// The float of a pattern; every NaN's pattern gives a NaN.
pub fn float(b: u64) -> f64
    ensures { result ≡ from_bits binary64 b }
{
    std::num::f64_from_bits_with_nan(b)
}

pub fn float32(b: u32) -> f32
    ensures { result ≡ from_bits binary32 b }
{
    std::num::f32_from_bits_with_nan(b)
}

// The float of four bytes, the lowest first.
pub fn decoded32(encoded: [u8; 4]) -> f32
    ensures { result ≡ from_bits binary32 (little_endian encoded) }
{
    float32(u32::from_le_bytes(encoded))
}

// The float of eight bytes, the lowest first.
pub fn decoded(encoded: [u8; 8]) -> f64
    ensures { result ≡ from_bits binary64 (little_endian encoded) }
{
    float(u64::from_le_bytes(encoded))
}

// 64 bits read as a signed number.
pub fn signed(u: u64) -> i64
    ensures { result ≡ signed_of u }
{
    u.cast_signed()
}

// The 64 bits of a signed number.
pub fn unsigned(z: i64) -> u64
    ensures { result ≡ unsigned_of z }
{
    z.cast_unsigned()
}
