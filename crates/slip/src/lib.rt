// A record as the sixteen words of a line, as it is typed and as it is printed: specs/Slip.antt has the order.
#![tactic(auto)]

pub mod line;
pub mod number;
pub mod places;
