// The normal form of a line: a command record written so that it reads as the record again.
#![tactic(auto)]

pub mod write;
