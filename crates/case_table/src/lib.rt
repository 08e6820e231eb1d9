// A table of cases, one in a line.
#![tactic(auto)]

pub mod fault;
pub mod hex;
pub mod tally;
