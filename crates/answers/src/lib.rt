// What a step of the detector tells: the observation that the best survivor leaves, its soft record,
// and the walk back through the parents to the dibit of 31 steps before.
//
// Lent: the parents, step after step (state s of the step at w at 64 w + s). The soft records are the
// caller's, by value: `oldest` reads the one that a step needs.
#![tactic(auto)]

pub mod combine;
pub mod soft;
pub mod walk;

// The steps that are held: a walk back goes 31 steps from the newest.
pub const STEPS: usize = 32;

// A parent for each state, at each of the steps that are held.
pub const PARENTS: usize = 2048;
