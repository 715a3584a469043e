// A figure of single instructions, cycle by cycle, and how it is printed: a part of figures and lanes.
#![tactic(auto)]

pub mod figure;
pub mod say;
