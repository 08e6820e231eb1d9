// The definitions of a sheet that runs: states, values, steps, replies and answers.
#![tactic(auto)]

pub mod kinds;
