// The parts of an operation. What stands for a part that it hasn't is never looked at; an Option would ask each use for an answer to None.
ghost use Rattle.std.specs.Prelude.{◌≡◌};
ghost use Rattle.opcodes.specs.Opcodes.{alu_of, reg_of, source_in, one_in, cond_in, flag_in, wide_of};

use crate::types::Operation;
use alu::types::Alu;
use cpu::record::is_wide_source;
use cpu::registers::is_wide;
use cpu::types::{Cond, One, Reg, Source};

pub fn alu_of(o: Operation) -> Alu
    ensures { result ≡ alu_of o }
{
    match o {
        Operation::Read(k, _) => k,
        _ => Alu::Load,
    }
}

pub fn reg_of(o: Operation) -> Reg
    ensures { result ≡ reg_of o }
{
    match o {
        Operation::Read(_, r) | Operation::Take(r) => r,
        _ => Reg::A,
    }
}

pub fn source_in(o: Operation) -> Source
    ensures { result ≡ source_in o }
{
    match o {
        Operation::Give(k) => k,
        _ => Source::Zero,
    }
}

pub fn one_in(o: Operation) -> One
    ensures { result ≡ one_in o }
{
    match o {
        Operation::Do(k) => k,
        _ => One::Nop,
    }
}

pub fn cond_in(o: Operation) -> Cond
    ensures { result ≡ cond_in o }
{
    match o {
        Operation::If(k) => k,
        _ => Cond::Always,
    }
}

pub fn flag_in(o: Operation) -> bool
    ensures { result ≡ flag_in o }
{
    match o {
        Operation::Flag(t) => t,
        _ => false,
    }
}

// Whether an operation is 16 bits wide.
pub fn is_wide_operation(o: Operation, m: bool, x: bool) -> bool
    ensures { result ≡ wide_of o m x }
{
    match o {
        Operation::Read(_, r) => is_wide(r, m, x),
        Operation::Give(k) => is_wide_source(k, m, x),
        Operation::Take(r) => is_wide(r, m, x),
        _ => false,
    }
}
