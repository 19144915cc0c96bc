// One session and the stored forms, in memory that is lent: its states, and what becomes of it where a line is refused.
#![tactic(auto)]

pub mod name;
pub mod reply;
pub mod state;
