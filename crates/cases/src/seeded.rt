// A sample, or a symbol, from a seed.
use complex::Complex32;
use replay::{next, unit};

pub fn point(seed: u64) -> Complex32 {
    Complex32 {
        real: unit(seed),
        imaginary: unit(next(seed)),
    }
}
