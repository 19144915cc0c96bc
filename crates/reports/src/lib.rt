// What calls say, behind the bytes that wait for each stream.
#![tactic(auto)]

pub mod calls;
pub mod refusals;
