// A session by hand: what a typed line means, how a request is shown. Of what asks the system a contract has only what follows whatever it answers,
// as in crates/gate.
#![tactic(auto)]

pub mod bench;
pub mod input;
pub mod meaning;
pub mod request;
