// One cycle over a lent memory: a read is answered from it, a write is stored in it.
#![tactic(auto)]

pub mod turn;
