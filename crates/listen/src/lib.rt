// A line to one session, in every state.
#![tactic(auto)]

pub mod obey;
