// Cycles over a memory with their lines in a text, up to the first that is refused.
#![tactic(auto)]

pub mod trail;
pub mod types;
