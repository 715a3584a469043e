// The cycles of jumps, calls, returns, branches and moves: the lists of crates/cycles/specs/Cycles.antt, read by number.
#![tactic(auto)]

pub mod jumps;
