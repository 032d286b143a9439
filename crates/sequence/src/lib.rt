// The sequence detector without its tracker: 64 states, each the last three symbols, stepped with
// whatever channels the step is given; the parents and the soft records of 32 steps, and the dibit
// that each step decides 31 steps late. A tracker, which makes the channels before a step and follows
// after it, stands above (`lms_detector` has the first).
//
// Lent planes: channels tap after tap (tap t of the state s at s + 64 t), costs by state, parents step
// after step. The soft records are the caller's, by value; a step's own comes back with its answer.
#![tactic(auto)]

pub mod admitted;
pub mod step;
