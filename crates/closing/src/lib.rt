// The kept things for a set of questions, worked out from the rows that a view shows, with no allocation: marks are
// added rule by rule until a pass over the rows adds none.
#![tactic(auto)]

pub mod close;
pub mod marks;
mod rules;
