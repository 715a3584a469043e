// What the command's programs say and are told. The system's answers are nobody's to promise, so a contract here has only what follows whatever they
// are; what is reckoned from them stands in crates/pails.
#![tactic(auto)]

pub mod args;
pub mod progress;
pub mod reason;
pub mod say;
pub mod start;
