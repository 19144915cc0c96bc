// The program of a class over lent memory, with no call of C: input lines to records.
#![tactic(auto)]

pub mod fill;
pub mod records;
