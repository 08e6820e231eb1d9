// The way to the kept things: items that are marked, and rules by which marks follow from marks.
#![tactic(auto)]

pub mod kinds;
