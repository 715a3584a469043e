// Whole instructions' work in one go: operations at their width, and one-byte instructions.
#![tactic(auto)]

pub mod regs;
pub mod work;
