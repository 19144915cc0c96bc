// The labels: answers are asked for and given, and sets are printed.
#![tactic(auto)]

pub mod answer;
pub mod print;
