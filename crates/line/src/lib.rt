// A line of the profile: read to one command record or one refusal.
#![tactic(auto)]

pub mod clear;
pub mod kind;
pub mod parts;
pub mod read;
