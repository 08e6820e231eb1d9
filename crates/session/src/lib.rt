// The lines of a session: bytes written in base sixteen, calls read, replies written.
#![tactic(auto)]

pub mod call;
pub mod hex;
pub mod line;
pub mod perform;
pub mod reply;
