// What each cycle of a shape asks and does. The shapes of operands are here, those of the stack in crate stack, those of jumps in crate flow.
#![tactic(auto)]

pub mod operand;
pub mod row;
pub mod types;
