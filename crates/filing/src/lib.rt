// The forms: a form is collected and stored, listed, opened and deleted.
#![tactic(auto)]

pub mod collect;
pub mod file;
pub mod shelf;
