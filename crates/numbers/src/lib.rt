// The numbers that several of the exported functions answer: fields of bits, in one place for all of them.
#![tactic(auto)]

pub mod numbers;
