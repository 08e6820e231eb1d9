// A sheet and a state of it, read through a narrow interface; and over it what is worked out once for all rigs: typed
// rows, the values of elements and nodes, and the checks of a step.
#![tactic(auto)]

pub mod answers;
pub mod changes;
pub mod checks;
mod numbers;
pub mod typed;
pub mod values;
pub mod view;
