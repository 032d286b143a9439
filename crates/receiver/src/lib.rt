// The receiver: setup, blocks of samples, the second tracker's enabling, and the reading of the
// constellation. What is asked of a caller is checked, and answered by a refusal.

#![tactic(auto)]

mod admitted;
pub mod block;
pub mod enable;
pub mod reading;
pub mod setup;
mod streams;
