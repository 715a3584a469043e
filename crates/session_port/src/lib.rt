// The functions that a program in C or Rust links for bench sessions, on numbers and lent bytes. include/glavorint.h says what a caller has to know.
#![tactic(auto)]

pub mod repeated;
pub mod sessions;
pub mod types;
