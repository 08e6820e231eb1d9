// The packed rig.
#![tactic(auto)]

pub mod packed;
mod store;
mod tables;
mod written;
