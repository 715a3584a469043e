// The decode: one match on the opcode byte.
#![tactic(auto)]

ghost use Rattle.std.specs.Prelude.{◌≡◌};
ghost use Rattle.opcodes.specs.Opcodes.{decode_of};
ghost use Rattle.decode.specs.Columns.{one_of, column_of, operation_of, index_of, condition_of};

use alu::types::{Alu, Shift};
use cpu::types::{Cond, One, Reg, Source};
use opcodes::types::{Operation, Shape};

// Loads and stores of Y, A and X stand side by side.
fn column(op: u8) -> Reg
    ensures { result ≡ column_of op }
{
    match op % 4 {
        0 => Reg::Y,
        1 => Reg::A,
        _ => Reg::X,
    }
}

// Bits 5 to 7 choose an operation.
fn operation(op: u8) -> Alu
    ensures { result ≡ operation_of op }
{
    match op / 32 {
        0 => Alu::Ora,
        1 => Alu::And,
        2 => Alu::Eor,
        3 => Alu::Adc,
        5 => Alu::Load,
        6 => Alu::Cmp,
        _ => Alu::Sbc,
    }
}

// CPY is a row above CPX.
fn index(op: u8) -> Reg
    ensures { result ≡ index_of op }
{
    if op / 32 % 2 == 1 { Reg::X } else { Reg::Y }
}

// Bits 6 and 7 choose a branch's flag, bit 5 its value.
fn condition(op: u8) -> Cond
    ensures { result ≡ condition_of op }
{
    let to = op / 32 % 2 == 1;
    match op / 64 {
        0 => Cond::Negative(to),
        1 => Cond::Overflow(to),
        2 => Cond::Carry(to),
        _ => Cond::Zero(to),
    }
}

// An instruction of one byte; NOP for a byte that is none.
#[tactic(auto, unfolding(crate::specs::Columns::one_of, opcodes::specs::Opcodes::one_bytes))]
fn one_byte(op: u8) -> One
    ensures { result ≡ one_of op }
{
    match op {
        0x0A => One::Accumulator(Shift::Asl),
        0x18 => One::Carry(false),
        0x1A => One::Accumulator(Shift::Inc),
        0x1B => One::Tcs,
        0x2A => One::Accumulator(Shift::Rol),
        0x38 => One::Carry(true),
        0x3A => One::Accumulator(Shift::Dec),
        0x3B => One::Tsc,
        0x4A => One::Accumulator(Shift::Lsr),
        0x58 => One::Interrupt(false),
        0x5B => One::Tcd,
        0x6A => One::Accumulator(Shift::Ror),
        0x78 => One::Interrupt(true),
        0x7B => One::Tdc,
        0x88 => One::Index(Reg::Y, false),
        0x8A => One::Transfer(Reg::X, Reg::A),
        0x98 => One::Transfer(Reg::Y, Reg::A),
        0x9A => One::Txs,
        0x9B => One::Transfer(Reg::X, Reg::Y),
        0xA8 => One::Transfer(Reg::A, Reg::Y),
        0xAA => One::Transfer(Reg::A, Reg::X),
        0xB8 => One::Clv,
        0xBA => One::Tsx,
        0xBB => One::Transfer(Reg::Y, Reg::X),
        0xC8 => One::Index(Reg::Y, true),
        0xCA => One::Index(Reg::X, false),
        0xD8 => One::Decimal(false),
        0xE8 => One::Index(Reg::X, true),
        0xEA => One::Nop,
        0xF8 => One::Decimal(true),
        0xFB => One::Xce,
        _ => One::Nop,
    }
}

// What a byte is as an opcode; unlisted ones are refused with 5.
#[tactic(auto, unfolding(opcodes::specs::Opcodes::decode_of, opcodes::specs::Opcodes::opcodes, opcodes::specs::Opcodes::one_bytes))]
pub fn decode(op: u8) -> Option<(Shape, Operation)>
    ensures { result ≡ decode_of op }
{
    match op {
        0x09 | 0x29 | 0x49 | 0x69 | 0xA9 | 0xC9 | 0xE9 => Some((
            Shape::Immediate,
            Operation::Read(operation(op), Reg::A),
        )),
        0x05 | 0x25 | 0x45 | 0x65 | 0xC5 | 0xE5 => Some((
            Shape::Direct,
            Operation::Read(operation(op), Reg::A),
        )),
        0x0D | 0x2D | 0x4D | 0x6D | 0xCD | 0xED => Some((
            Shape::Absolute,
            Operation::Read(operation(op), Reg::A),
        )),
        0x24 => Some((Shape::Direct, Operation::Read(Alu::Bit, Reg::A))),
        0x2C => Some((Shape::Absolute, Operation::Read(Alu::Bit, Reg::A))),
        0x89 => Some((Shape::Immediate, Operation::Read(Alu::BitImmediate, Reg::A))),
        0xA0 | 0xA2 => Some((Shape::Immediate, Operation::Read(Alu::Load, column(op)))),
        0xA4..=0xA6 => Some((Shape::Direct, Operation::Read(Alu::Load, column(op)))),
        0xAC..=0xAE => Some((Shape::Absolute, Operation::Read(Alu::Load, column(op)))),
        0xC0 | 0xE0 => Some((Shape::Immediate, Operation::Read(Alu::Cmp, index(op)))),
        0xC4 | 0xE4 => Some((Shape::Direct, Operation::Read(Alu::Cmp, index(op)))),
        0xCC | 0xEC => Some((Shape::Absolute, Operation::Read(Alu::Cmp, index(op)))),
        0x84..=0x86 => Some((
            Shape::StoreDirect,
            Operation::Give(Source::Register(column(op))),
        )),
        0x8C..=0x8E => Some((
            Shape::StoreAbsolute,
            Operation::Give(Source::Register(column(op))),
        )),
        0x64 => Some((Shape::StoreDirect, Operation::Give(Source::Zero))),
        0x9C => Some((Shape::StoreAbsolute, Operation::Give(Source::Zero))),
        0xEB => Some((Shape::Xba, Operation::Do(One::Xba))),
        0xC2 => Some((Shape::Mask, Operation::Flag(false))),
        0xE2 => Some((Shape::Mask, Operation::Flag(true))),
        0x42 => Some((Shape::Wdm, Operation::Plain)),
        0x54 => Some((Shape::Move, Operation::Flag(true))),
        0x44 => Some((Shape::Move, Operation::Flag(false))),
        0x10 | 0x30 | 0x50 | 0x70 | 0x90 | 0xB0 | 0xD0 | 0xF0 => Some((
            Shape::Branch,
            Operation::If(condition(op)),
        )),
        0x80 => Some((Shape::Branch, Operation::If(Cond::Always))),
        0x82 => Some((Shape::BranchLong, Operation::Plain)),
        0x4C => Some((Shape::Jump, Operation::Plain)),
        0x6C => Some((Shape::JumpIndirect, Operation::Plain)),
        0x7C => Some((Shape::JumpIndexed, Operation::Plain)),
        0x5C => Some((Shape::JumpLong, Operation::Plain)),
        0xDC => Some((Shape::JumpIndirectLong, Operation::Plain)),
        0x20 => Some((Shape::Call, Operation::Plain)),
        0xFC => Some((Shape::CallIndexed, Operation::Plain)),
        0x22 => Some((Shape::CallLong, Operation::Plain)),
        0x60 => Some((Shape::Return, Operation::Plain)),
        0x6B => Some((Shape::ReturnLong, Operation::Plain)),
        0x48 => Some((Shape::Push, Operation::Give(Source::Register(Reg::A)))),
        0xDA => Some((Shape::Push, Operation::Give(Source::Register(Reg::X)))),
        0x5A => Some((Shape::Push, Operation::Give(Source::Register(Reg::Y)))),
        0x08 => Some((Shape::Push, Operation::Give(Source::P))),
        0x8B => Some((Shape::Push, Operation::Give(Source::Dbr))),
        0x0B => Some((Shape::Push, Operation::Give(Source::D))),
        0x4B => Some((Shape::Push, Operation::Give(Source::Pbr))),
        0x68 => Some((Shape::Pull, Operation::Take(Reg::A))),
        0xFA => Some((Shape::Pull, Operation::Take(Reg::X))),
        0x7A => Some((Shape::Pull, Operation::Take(Reg::Y))),
        0x28 => Some((Shape::PullP, Operation::Plain)),
        0xAB => Some((Shape::PullB, Operation::Plain)),
        0x2B => Some((Shape::PullD, Operation::Plain)),
        0xF4 => Some((Shape::Pea, Operation::Plain)),
        0xD4 => Some((Shape::Pei, Operation::Plain)),
        0x62 => Some((Shape::Per, Operation::Plain)),
        0x0A
        | 0x18
        | 0x1A
        | 0x2A
        | 0x38
        | 0x3A
        | 0x4A
        | 0x58
        | 0x6A
        | 0x78
        | 0x88
        | 0x8A
        | 0x98
        | 0x9A
        | 0xA8
        | 0xAA
        | 0xB8
        | 0xBA
        | 0xC8
        | 0xCA
        | 0xD8
        | 0xE8
        | 0xEA
        | 0xF8 => Some((Shape::Implied, Operation::Do(one_byte(op)))),
        0x1B | 0x3B | 0x5B | 0x7B | 0x9B | 0xBB | 0xFB => Some((
            Shape::Implied,
            Operation::Do(one_byte(op)),
        )),
        _ => None,
    }
}
