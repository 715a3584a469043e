// The functions that a program in C or Rust links for a session's cycles over its own memory. include/glavorint.h says what a caller has to know.
#![tactic(auto)]

pub mod walk;
