// What rounds, refusals and benches start from and say: a part of the three.
#![tactic(auto)]

pub mod say;
pub mod start;
