// Number helpers: comparisons that pass over a NaN or keep it, narrowing,
// and what bits stand for. Each has its answer for every input. In `bits` a name that ends in 32 is
// that of the `f32` form.
#![tactic(auto)]

pub mod bits;
pub mod compare;
pub mod narrow;

// 2 pi: a full turn in radians.
pub const TURN: f64 = 6.283185307179586;
