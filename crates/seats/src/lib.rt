// Thirty sessions in memory, a part of equal width for each tablet, and their numbers.
#![tactic(auto)]

pub mod beside;
pub mod lower;
pub mod numbers;
pub mod turns;
