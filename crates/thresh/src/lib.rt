// The lines of a list, taken from its bytes one after the other and counted: a part of the program `replay`.
#![tactic(auto)]

pub mod list;
