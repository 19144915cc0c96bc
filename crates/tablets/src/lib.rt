// The sets of a class: whose is next for the printer, and how many are left. What is proved of its calls, lines and takes, stands here too.
#![tactic(auto)]

pub mod counts;
pub mod sets;
