// Runs that write a trace: a line of text for each completed cycle, into a lent buffer.
#![tactic(auto)]

pub mod traced;
pub mod types;
