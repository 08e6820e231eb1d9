// The open rig.
#![tactic(auto)]

pub mod open;
mod record;
mod store;
mod tables;
