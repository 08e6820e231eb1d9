// The rules that the rows of a sheet must keep, and the walk that tries them in file order.
#![tactic(auto)]

mod checks;
mod names;
mod resting;
pub mod walk;
