// A sheet's bytes and a set of questions to the bytes of the cut, in one call.
#![tactic(auto)]

pub mod fault;
pub mod one_call;
pub mod reply;
