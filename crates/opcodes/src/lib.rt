// The opcode list of document 01: which bytes are listed, with what shape and operation.
#![tactic(auto)]

pub mod opcode;
pub mod operation;
pub mod types;
