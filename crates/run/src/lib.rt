// Runs: at most so many cycles over a lent memory that stands for bank 0.
#![tactic(auto)]

pub mod pace;
pub mod run;
pub mod types;
