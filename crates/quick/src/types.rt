// An opcode as a quick path takes it: what it does, and where its operand lies.
use alu::types::Alu;
use cpu::types::{One, Reg, Source};

#[derive(Clone, Copy)]
pub enum Mode {
    Immediate,
    Direct,
    Absolute,
}

// What a branch looks at. With what the flag must be it is two parts of `Quick::If`, and no `Cond`: an enum inside that enum made
// the processor wait in every stride (docs/SPEED.md).
#[derive(Clone, Copy)]
pub enum Test {
    Always,
    Carry,
    Zero,
    Negative,
    Overflow,
}

#[derive(Clone, Copy)]
pub enum Quick {
    Slow, // any other opcode, a move among them, and a byte that is none
    Read(Mode, Alu, Reg),
    Store(Mode, Source),
    Do(One),
    If(Test, bool), // and what the flag must be
    Jump,
}
