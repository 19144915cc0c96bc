// The words of a class's program: what an input line asks, and the first line of the record that answers it.
#![tactic(auto)]

pub mod asked;
pub mod heads;
