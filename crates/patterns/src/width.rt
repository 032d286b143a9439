// The two widths of float, `f32` and `f64`, by what differs between them.
ghost use Rattle.std.specs.Prelude.{◌≡◌, ℕ, ◌*◌, ◌^◌, ◌≤◌, T, false, pos, refl, from_bits, is_nan, to_bits};
ghost use Rattle.std.specs.Float.{Float, Format, binary32, binary64, fin, float_is_finite, nan};
ghost use Rattle.std.specs.Float.Ieee.{eq, fits, hid, low, lt, neg, of_int, ones, prec, top};

pub trait Width: Copy {
    // The sign's place in a pattern, its highest.
    const SIGN: u64;

    // The place of the hidden digit, above the trailing ones.
    const HIDDEN: u64;

    // The pattern of the infinity.
    const INFINITY: u64;

    // The smallest value above 0 is 2 ^ -LOWEST.
    const LOWEST: u64;

    ghost SIGN: { ℕ };

    ghost HIDDEN: { ℕ };

    ghost INFINITY: { ℕ };

    ghost LOWEST: { ℕ };

    ghost format: { Format };

    // The number that a float stands for.
    ghost number: { Self → Float };

    fn is_nan(self) -> bool
        ensures { result ≡ is_nan (number self) };

    fn is_finite(self) -> bool
        ensures { result ≡ float_is_finite (number self) };

    fn is_zero(self) -> bool
        ensures { result ≡ eq (number self) (fin false 0 (pos 0)) };

    fn is_below(self, other: Self) -> bool
        ensures { result ≡ lt (number self) (number other) };

    // The pattern; of a NaN the one with only the highest digit set.
    fn pattern(self) -> u64
        ensures value { result ≡ to_bits format (number self) }
        ensures held { T (fits format (number self)) };

    // The float of a pattern without a sign, up to the infinity's.
    fn of_pattern(b: u64) -> Self
        requires { b ≤ ones format * hid format }
        ensures { number result ≡ from_bits format b };

    // A whole number that the format holds.
    fn of_whole(w: u64) -> Self
        requires { w ≤ 2 ^ prec format }
        ensures { number result ≡ of_int format (pos w) };

    fn negated(self) -> Self
        ensures { number result ≡ neg (number self) };

    fn not_a_number() -> Self
        ensures { number result ≡ nan };

    ghost sign_is: { SIGN ≡ top format };

    ghost hidden_is: { HIDDEN ≡ hid format };

    ghost infinity_is: { INFINITY ≡ ones format * hid format };

    ghost lowest_is: { LOWEST ≡ low format };
}

impl Width for f64 {
    const SIGN: u64 = 0x8000_0000_0000_0000;

    const HIDDEN: u64 = 0x10_0000_0000_0000;

    const INFINITY: u64 = 0x7ff0_0000_0000_0000;

    const LOWEST: u64 = 1074;

    ghost SIGN = { 0x8000_0000_0000_0000 };

    ghost HIDDEN = { 0x10_0000_0000_0000 };

    ghost INFINITY = { 0x7ff0_0000_0000_0000 };

    ghost LOWEST = { 1074 };

    ghost format = { binary64 };

    ghost number = { λ x. x };

    ghost sign_is = { refl };

    ghost hidden_is = { refl };

    ghost infinity_is = { refl };

    ghost lowest_is = { refl };

    fn is_nan(self) -> bool {
        f64::is_nan(self)
    }

    fn is_finite(self) -> bool {
        f64::is_finite(self)
    }

    fn is_zero(self) -> bool {
        self == 0.0
    }

    fn is_below(self, other: f64) -> bool {
        self < other
    }

    fn pattern(self) -> u64 {
        std::num::f64_to_bits_with_nan(self)
    }

    fn of_pattern(b: u64) -> f64 {
        f64::from_bits(b)
    }

    fn of_whole(w: u64) -> f64 {
        w as f64
    }

    fn negated(self) -> f64 {
        -self
    }

    fn not_a_number() -> f64 {
        0.0 / 0.0
    }
}

impl Width for f32 {
    const SIGN: u64 = 0x8000_0000;

    const HIDDEN: u64 = 0x80_0000;

    const INFINITY: u64 = 0x7f80_0000;

    const LOWEST: u64 = 149;

    ghost SIGN = { 0x8000_0000 };

    ghost HIDDEN = { 0x80_0000 };

    ghost INFINITY = { 0x7f80_0000 };

    ghost LOWEST = { 149 };

    ghost format = { binary32 };

    ghost number = { λ x. x };

    ghost sign_is = { refl };

    ghost hidden_is = { refl };

    ghost infinity_is = { refl };

    ghost lowest_is = { refl };

    fn is_nan(self) -> bool {
        f32::is_nan(self)
    }

    fn is_finite(self) -> bool {
        f32::is_finite(self)
    }

    fn is_zero(self) -> bool {
        self == 0.0
    }

    fn is_below(self, other: f32) -> bool {
        self < other
    }

    fn pattern(self) -> u64 {
        std::num::f32_to_bits_with_nan(self) as u64
    }

    fn of_pattern(b: u64) -> f32 {
        f32::from_bits(b as u32)
    }

    fn of_whole(w: u64) -> f32 {
        w as f32
    }

    fn negated(self) -> f32 {
        -self
    }

    fn not_a_number() -> f32 {
        0.0 / 0.0
    }
}
