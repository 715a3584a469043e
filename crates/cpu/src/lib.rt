// The record: its types, well-formedness, the stack, and what an operation makes of the registers.
#![tactic(auto)]

pub mod change;
pub mod record;
pub mod registers;
pub mod types;
