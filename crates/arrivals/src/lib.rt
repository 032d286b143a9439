// The arrivals at a state: four branches, each with its metric, and the first cheapest of them. From
// the prior p the symbol k goes to the state k + 4 (p mod 16).
#![tactic(auto)]

pub mod branch;
pub mod choice;
