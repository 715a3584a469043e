// Whole instructions over a memory that stands for bank 0, one at a call: what their cycles come to, without a record between them.
#![tactic(auto)]

pub mod stride;
pub mod types;
