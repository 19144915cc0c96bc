// What a form's plan makes of answers: whether one fits, what it is worth, whether counters hold, and a set.
#![tactic(auto)]

pub mod answer;
pub mod count;
pub mod take;
