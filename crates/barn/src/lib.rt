// Where a run's memory comes from and goes to, how the run is done in pieces, and how it is told. As in crates/gate, a contract has only what follows
// whatever the system answers.
#![tactic(auto)]

pub mod image;
pub mod pieces;
pub mod report;
pub mod save;
