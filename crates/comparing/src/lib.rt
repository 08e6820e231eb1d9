// One list of calls, given to a pile of cuts and to a whole rig.
#![tactic(auto)]

pub mod compare;
mod same;
