// The image of a state: its definitions, and what is known of them.
#![tactic(auto)]

pub mod sizes;
