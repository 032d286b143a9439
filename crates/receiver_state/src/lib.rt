// The receiver's whole state, and the lock report that is read off it.

#![tactic(auto)]

pub mod state;
