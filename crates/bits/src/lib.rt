// Numbers in the bits of a byte string, lowest bit first, eight bits to a byte from its bit 0.
#![tactic(auto)]

pub mod length;
pub mod string;
