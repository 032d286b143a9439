// The detector's second tracker: each of the 64 states has four taps, their drift with each symbol, and
// an inverse of 8 x 8 numbers that weighs both. A state goes on from its parent's by a least-squares
// step, so that taps which move at a steady pace are followed without lag.
//
// Sixteen states at a time are taken into rooms of lanes (`least_squares`), where their step is made.
#![tactic(auto)]

pub mod follow;
mod lanes;
pub mod onward;
mod regressor;

// The drifts of all states: tap t of the state s at 64 t + s, imaginary parts 256 further.
pub const DRIFTS: usize = 512;
