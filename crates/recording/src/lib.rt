// A recording's bytes as numbers, and the text that a program over a recording writes. Bytes and
// text stand in slices that the caller lends: reading and writing are the program's.
#![tactic(auto)]

pub mod decode;
pub mod text;
