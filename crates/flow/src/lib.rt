// Input to output, over lent memory.
#![tactic(auto)]

pub mod cut;
pub mod fill;
