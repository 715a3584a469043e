// The meter's day as it is laid out, and the sums added again without the chip. A part of the program `farmyard`.
#![tactic(auto)]

pub mod checks;
pub mod meter;
pub mod rom;
pub mod sums;
