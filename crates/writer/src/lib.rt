// Sheets written to the front of a buffer.
#![tactic(auto)]

pub mod fault;
mod filling;
pub mod front;
pub mod write;
