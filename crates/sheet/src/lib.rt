// The definitions of the sheet language: what a sheet is, which bytes are one, and how its rows read.
#![tactic(auto)]

pub mod codes;
pub mod decode;
pub mod refusal;
pub mod rows;
pub mod sizes;
