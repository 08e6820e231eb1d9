// Rigs: whatever runs a sheet.
#![tactic(auto)]

pub mod answer;
pub mod rig;
pub mod seen;
