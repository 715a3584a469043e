// What a cycle makes of the answered byte: the registers, where it leads; then, with what crate mid does to PC, S, DBR and the scratch words, the record.
#![tactic(auto)]

pub mod arrive;
pub mod regs;
pub mod types;
