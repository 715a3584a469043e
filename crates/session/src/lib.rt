// A bench session: a machine's record with the count of its cycles, lent and changed in place.
#![tactic(auto)]

pub mod session;
pub mod types;
