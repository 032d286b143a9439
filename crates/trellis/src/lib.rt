// The trellis: from 64 prior states by four symbols to 64 states, the first cheapest way to each, and
// the first cheapest state.
#![tactic(auto)]

pub mod best;
pub mod step;
