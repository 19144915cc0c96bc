// A form's text: its lines one after the other, which of them define, how the others end, whether the form is sound, and its plan.
#![tactic(auto)]

pub mod asked;
pub mod check;
pub mod ending;
pub mod plan;
pub mod walk;
