// The registers by name, at their width, and byte by byte.
ghost use Rattle.std.specs.Prelude.{◌≡◌};
ghost use Rattle.cpu.specs.Registers.{get, put, set_flags, set_d, wide_reg, first, top, half, half_set, stepped};

use crate::types::{Part, Reg, Regs};
use alu::types::Ends;
use flags::Flags;
use words::{choose, down, high, low, up, with_high, with_low};

pub fn value_of(k: Reg, g: Regs) -> u16
    ensures { result ≡ get k g }
{
    match k {
        Reg::A => g.a,
        Reg::X => g.x,
        Reg::Y => g.y,
    }
}

pub fn with_value(k: Reg, v: u16, g: Regs) -> Regs
    ensures { result ≡ put k v g }
{
    match k {
        Reg::A => Regs { a: v, ..g },
        Reg::X => Regs { x: v, ..g },
        Reg::Y => Regs { y: v, ..g },
    }
}

pub fn with_flags(f: Flags, g: Regs) -> Regs
    ensures { result ≡ set_flags f g }
{
    Regs { flags: f, ..g }
}

pub fn with_d(v: u16, g: Regs) -> Regs
    ensures { result ≡ set_d v g }
{
    Regs { d: v, ..g }
}

// Whether a register is 16 bits wide: M is the accumulator's flag, X the index registers'.
pub fn is_wide(k: Reg, m: bool, x: bool) -> bool
    ensures { result ≡ wide_reg k m x }
{
    match k {
        Reg::A => !m,
        Reg::X | Reg::Y => !x,
    }
}

// Which ends of the operand a part has.
pub fn ends_of(p: Part) -> Ends
    ensures first { result.first ≡ first p }
    ensures top { result.top ≡ top p }
{
    match p {
        Part::Only => Ends::BOTH,
        Part::Low => Ends::LOW,
        Part::High => Ends::HIGH,
    }
}

// The byte of a word that goes with a part.
pub fn half_of(p: Part, w: u16) -> u8
    ensures { result ≡ half p w }
{
    match p {
        Part::Only | Part::Low => low(w),
        Part::High => high(w),
    }
}

pub fn with_half(p: Part, w: u16, b: u8) -> u16
    ensures { result ≡ half_set p w b }
{
    match p {
        Part::Only | Part::Low => with_low(w, b),
        Part::High => with_high(w, b),
    }
}

// One further up or down: INX, DEY, and the moves.
pub fn step(ups: bool, w: u16) -> u16
    ensures { result ≡ stepped ups w }
{
    choose(ups, up(w), down(w))
}
