// Arithmetic and logic on bytes, with the flags handed in and back, and on words by chaining bytes.
#![tactic(auto)]

pub mod ops;
pub mod shifts;
pub mod types;
