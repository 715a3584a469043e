// The operations on a register and a value that was read: a byte of them, then the width.
ghost use Rattle.std.specs.Prelude.{◌≡◌};
ghost use Rattle.alu.specs.Alu.{chained, nz, summed, cmp_byte, bit_byte, load_byte, operated, operated_at};

use crate::types::{Alu, Byte, Ends, Word};
use adder::Sum;
use flags::Flags;
use words::{both, choose, either, high, join, low, with_low};

// Z after a byte: of all bytes so far.
fn zero_after(first: bool, before: bool, now: bool) -> bool
    ensures { result ≡ chained first before now }
{
    both(either(first, before), now)
}

// N and Z after a byte.
#[tactic(auto, unfolding(crate::specs::Alu::nz))]
pub fn set_nz(e: Ends, byte: u8, f: Flags) -> Flags
    ensures { result ≡ nz e.first e.top byte f }
{
    let n = choose(e.top, byte >= 128, f.negative);
    let z = zero_after(e.first, f.zero, byte == 0);
    f.set_nvzc(n, f.overflow, z, f.carry)
}

// All four flags after a byte of a sum.
#[tactic(auto, unfolding(crate::specs::Alu::summed))]
fn sum_of(first: bool, s: Sum, f: Flags) -> Byte
    ensures { result ≡ summed first s f }
{
    let z = zero_after(first, f.zero, s.byte == 0);
    Byte {
        byte: s.byte,
        flags: f.set_nvzc(s.byte >= 128, s.overflow, z, s.carry),
    }
}

// A binary difference that starts with no borrow; the register and V stay.
#[tactic(auto, unfolding(crate::specs::Alu::cmp_byte))]
fn cmp(e: Ends, a: u8, b: u8, f: Flags) -> Byte
    ensures { result ≡ cmp_byte e.first e.top a b f }
{
    let s = adder::sbc(false, a, b, either(e.first, f.carry));
    let n = choose(e.top, s.byte >= 128, f.negative);
    let z = zero_after(e.first, f.zero, s.byte == 0);
    Byte {
        byte: a, // the register stays
        flags: f.set_nvzc(n, f.overflow, z, s.carry),
    }
}

// Z of the AND; N and V are the value's top bits, where `signs` says that they are taken at all.
#[tactic(auto, unfolding(crate::specs::Alu::bit_byte))]
fn bit(first: bool, signs: bool, a: u8, b: u8, f: Flags) -> Byte
    ensures { result ≡ bit_byte first signs a b f }
{
    let n = choose(signs, b >= 128, f.negative);
    let v = choose(signs, b / 64 % 2 == 1, f.overflow);
    let z = zero_after(first, f.zero, a & b == 0);
    Byte {
        byte: a,
        flags: f.set_nvzc(n, v, z, f.carry),
    }
}

// A new byte in the register, with its N and Z: what a load reads, or what AND, ORA and EOR make of two.
#[tactic(auto, unfolding(crate::specs::Alu::load_byte))]
fn load(e: Ends, byte: u8, f: Flags) -> Byte
    ensures { result ≡ load_byte e.first e.top byte f }
{
    Byte {
        byte,
        flags: set_nz(e, byte, f),
    }
}

// One byte of an operation: the register's byte after it, and the flags.
#[tactic(auto, unfolding(crate::specs::Alu::adc_byte, crate::specs::Alu::sbc_byte, crate::specs::Alu::and_byte, crate::specs::Alu::ora_byte, crate::specs::Alu::eor_byte, crate::specs::Alu::load_byte))]
pub fn operate(k: Alu, e: Ends, a: u8, b: u8, f: Flags) -> Byte
    ensures { result ≡ operated k e.first e.top a b f }
{
    match k {
        Alu::Adc => sum_of(e.first, adder::adc(f.decimal, a, b, f.carry), f),
        Alu::Sbc => sum_of(e.first, adder::sbc(f.decimal, a, b, f.carry), f),
        Alu::Cmp => cmp(e, a, b, f),
        Alu::And => load(e, a & b, f),
        Alu::Ora => load(e, a | b, f),
        Alu::Eor => load(e, a ^ b, f),
        Alu::Bit => bit(e.first, e.top, a, b, f),
        Alu::BitImmediate => bit(e.first, false, a, b, f),
        Alu::Load => load(e, b, f),
    }
}

// Here two bytes of two operands are chained, the low one first; a shift has one operand and may start at the top
// (`shifts::both_bytes`). One function for both would take the byte's operation and the order, and be no shorter.
// An operation at its width: one byte, the register's high byte kept, or two, the low one first.
pub fn operate_at(k: Alu, wide: bool, a: u16, b: u16, f: Flags) -> Word
    ensures { result ≡ operated_at k wide a b f }
{
    if wide {
        let l = operate(k, Ends::LOW, low(a), low(b), f);
        let h = operate(k, Ends::HIGH, high(a), high(b), l.flags);
        Word {
            word: join(l.byte, h.byte),
            flags: h.flags,
        }
    } else {
        let l = operate(k, Ends::BOTH, low(a), low(b), f);
        Word {
            word: with_low(a, l.byte),
            flags: l.flags,
        }
    }
}
