// The parts of a line: read at their places, and written into a lent buffer.
#![tactic(auto)]

pub mod read;
pub mod write;
