// The function that a program in C or Rust links for traced runs, on numbers and lent bytes. include/glavorint.h says what a caller has to know.
#![tactic(auto)]

pub mod traces;
