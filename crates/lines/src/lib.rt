// A line of a list of single instructions: its characters, its form, and the ten words of a state; and what lines come to. specs/ has the definitions.
#![tactic(auto)]

pub mod form;
pub mod state;
pub mod tally;
pub mod text;
pub mod types;
