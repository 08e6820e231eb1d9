// States changed through a narrow interface: back to the start, and by a step, once for all rigs.
#![tactic(auto)]

pub mod home;
pub mod step;
pub mod store;
