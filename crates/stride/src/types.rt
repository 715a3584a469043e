// What a whole instruction comes to.
use cpu::types::{Record, Regs};

// An operand's place inside the memory, the instruction's cycles, and the program counter after it.
#[derive(Clone, Copy)]
pub struct Spot {
    pub place: u16,
    pub cycles: u8,
    pub pc: u16,
}

// A quick instruction that stays inside the memory: its cycles, and what is left of it, but the memory.
#[derive(Clone, Copy)]
pub struct Leg {
    pub cycles: u8,
    pub pc: u16,
    pub s: u16,
    pub dbr: u8,
    pub regs: Regs,
}

// How many cycles of whole instructions were done, and the record after them. None done is a true count: the record is then as it was.
#[derive(Clone, Copy)]
pub struct Stretch {
    pub cycles: u32,
    pub after: Record,
}
