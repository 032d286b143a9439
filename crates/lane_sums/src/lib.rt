// The least-squares step of the second tracker for sixteen states side by side, from room to room.
#![tactic(auto)]

mod sums;
pub mod weigh;
