// The inverses after a least-squares step, out of rooms of sixteen lanes into the array of all of them: less
// gain times row, over 0.8, made alike across the diagonal, or begun anew.
#![tactic(auto)]

pub mod group;
mod quad;
