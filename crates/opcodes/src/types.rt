// An opcode: its shape, which gives its bus cycles, and the operation that these carry out.
use alu::types::Alu;
use cpu::types::{Cond, One, Reg, Source};

#[derive(Clone, Copy)]
pub enum Shape {
    Immediate,
    Absolute,
    Direct,
    StoreAbsolute,
    StoreDirect,
    Implied,
    Xba,
    Mask, // REP, SEP
    Wdm,
    Push,
    Pull,
    PullP,
    PullB,
    PullD,
    Pea,
    Pei,
    Per,
    Jump,
    JumpLong,
    JumpIndirect,
    JumpIndirectLong,
    JumpIndexed,
    Call,
    CallIndexed,
    CallLong,
    Return,
    ReturnLong,
    Branch,
    BranchLong,
    Move, // MVN, MVP
}

#[derive(Clone, Copy)]
pub enum Operation {
    Plain,
    Read(Alu, Reg), // an operation between a register and what is read
    Give(Source), // what is stored or pushed
    Take(Reg), // what is pulled
    Do(One),
    If(Cond),
    Flag(bool), // REP: false, SEP: true; MVP, downwards: false, MVN, upwards: true
}
