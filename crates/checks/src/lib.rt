// What stands between a caller and a call: which states are admitted, the checks of a setup and of a
// block in their order, and the refusals by their numbers.

#![tactic(auto)]

pub mod admitted;
pub mod block;
pub mod refusal;
pub mod setup;
