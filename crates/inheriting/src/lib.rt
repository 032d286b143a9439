// How each state takes its parent's inverse. The number e of the inverse of the state s stands at
// 256 (s / 4) + 4 e + s % 4, and its imaginary part 4,096 further: four states side by side. Those four
// are all read before any is written, so that the compiler may make one operation of the four.
#![tactic(auto)]

pub mod copied;
pub mod foretold;
mod places;
