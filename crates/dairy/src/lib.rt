// What the dairy reads: the memory's bytes and digits, an entry of the log, and how the day's page is printed. A part of the program `farmyard`.
#![tactic(auto)]

pub mod entry;
pub mod page;
pub mod slip;
pub mod yard;
