// What is said of a replayed list: a part of the program `replay`, in a crate of its own so that each check is short.
#![tactic(auto)]

pub mod case;
pub mod judge;
pub mod report;
