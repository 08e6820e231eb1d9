// Sheets opened by a line.
#![tactic(auto)]

pub mod open;
