// The polyphase resampler to 19,200 values a second: 32 arms of c taps over a ring of c + 16 values.
#![tactic(auto)]

pub mod design;
pub mod dimensions;
pub mod pass;
