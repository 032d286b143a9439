// The arithmetic of the second tracker's least-squares step, number by number, and the rooms in which
// sixteen states take it side by side: the number k of the lane l stands at 16 k + l, and its imaginary
// part half a room further.
#![tactic(auto)]

pub mod entry;
pub mod limits;
pub mod step;

// Rooms of sixteen inverses (8 x 8 numbers), of sixteen rows of 8, and of sixteen rows of 4.
pub const INVERSES: usize = 2048;

pub const EIGHTS: usize = 256;

pub const FOURS: usize = 128;

// Sixteen complex numbers, and sixteen real ones.
pub const PAIRS: usize = 32;

pub const LANES: usize = 16;

// The inverses of all 64 states: the number e of the state s stands at 256 (s / 4) + 4 e + s % 4, and its
// imaginary part 4,096 further.
pub const ALL: usize = 8192;
