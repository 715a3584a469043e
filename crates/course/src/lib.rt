// The course of a case: its cycles through `request` and `answer`, to the first that differs from the line. specs/ has the definitions.
#![tactic(auto)]

pub mod asked;
pub mod run;
pub mod types;
