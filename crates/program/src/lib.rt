// The sample program's work, on slices: the stages that it goes through, what each waits for and what
// comes of the bytes that came, and the text of its answers. Reading and writing are the program's.

#![tactic(auto)]

pub mod answer;
pub mod step;
