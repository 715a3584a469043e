// What the command's programs reckon without asking the system for anything: specs/Pails.antt. A long run is carried in pieces, as milk in pails.
#![tactic(auto)]

pub mod args;
pub mod image;
pub mod pieces;
pub mod ran;
pub mod word;
