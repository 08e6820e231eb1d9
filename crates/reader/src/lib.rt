// Sheets read from bytes.
#![tactic(auto)]

pub mod accepted;
pub mod cells;
pub mod fault;
pub mod read;
