// What a check of some bytes says, in words.
#![tactic(auto)]

mod lines;
mod names;
pub mod report;
mod rewrite;
