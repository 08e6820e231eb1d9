// Cuts: rigs above rigs.
#![tactic(auto)]

pub mod cut;
mod stays;
mod tables;
