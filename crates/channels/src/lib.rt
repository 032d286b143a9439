// The detector's channels: each of its 64 states keeps its own estimate of the radio channel, four
// complex taps. Here are the symbols, the taps by state, and what they predict; how they follow what
// was received is a tracker's (`lms_tracker` is the first).
//
// A state stands for the last three symbols: newest + 4 x next + 16 x oldest. Taps are lent as two
// planes, tap after tap: tap t of the state s at s + 64 t.

#![tactic(auto)]

// The detector's states.
pub const STATES: usize = 64;

// The four taps of all states: the length of a plane of channels.
pub const CHANNELS: usize = 256;

// The terms of the three later taps for all states, which do not depend on the newest symbol.
pub const PAST_TERMS: usize = 192;

pub mod channel;
pub mod predict;
pub mod symbols;
