// ASL, ROL, LSR, ROR, INC and DEC of the accumulator: a byte of them, then the width.
// The carry flag leads from byte to byte; INC and DEC give it back as it was.
ghost use Rattle.std.specs.Prelude.{◌≡◌};
ghost use Rattle.alu.specs.Alu.{carried, with_carry, left_byte, right_byte, step_byte, shifted, carry_in, carry_out, from_top, both_bytes, one_byte, ending, shifted_at};

use crate::ops::set_nz;
use crate::types::{Byte, Ends, Shift, Word};
use flags::Flags;
use words::{high, join, low, one_if, with_low};

fn with_carry(c: bool, f: Flags) -> Flags
    ensures { result ≡ with_carry c f }
{
    f.set_nvzc(f.negative, f.overflow, f.zero, c)
}

// A result, its carry, and N and Z after it.
fn carried_byte(e: Ends, byte: u8, c: bool, f: Flags) -> Byte
    ensures { result ≡ carried e.first e.top byte c f }
{
    Byte {
        byte,
        flags: set_nz(e, byte, with_carry(c, f)),
    }
}

#[tactic(auto, unfolding(crate::specs::Alu::left_byte))]
fn left(e: Ends, b: u8, f: Flags) -> Byte
    ensures { result ≡ left_byte e.first e.top b f }
{
    carried_byte(e, b % 128 * 2 + one_if(f.carry), b >= 128, f)
}

#[tactic(auto, unfolding(crate::specs::Alu::right_byte))]
fn right(e: Ends, b: u8, f: Flags) -> Byte
    ensures { result ≡ right_byte e.first e.top b f }
{
    carried_byte(e, b / 2 + one_if(f.carry) * 128, b % 2 == 1, f)
}

// A byte of a step: 0 is added, or FF, and the carry.
#[tactic(auto, unfolding(crate::specs::Alu::step_byte))]
fn step(by: u8, e: Ends, b: u8, f: Flags) -> Byte
    ensures { result ≡ step_byte by e.first e.top b f }
{
    let s = adder::adc(false, b, by, f.carry);
    carried_byte(e, s.byte, s.carry, f)
}

// One byte of a shift or a step, with the carry as it comes and goes.
fn shift_byte(k: Shift, e: Ends, b: u8, f: Flags) -> Byte
    ensures { result ≡ shifted k e.first e.top b f }
{
    match k {
        Shift::Asl | Shift::Rol => left(e, b, f),
        Shift::Lsr | Shift::Ror => right(e, b, f),
        Shift::Inc => step(0, e, b, f),
        Shift::Dec => step(255, e, b, f),
    }
}

fn carry_in(k: Shift, c: bool) -> bool
    ensures { result ≡ carry_in k c }
{
    match k {
        Shift::Rol | Shift::Ror => c,
        Shift::Inc => true,
        Shift::Asl | Shift::Lsr | Shift::Dec => false,
    }
}

fn carry_out(k: Shift, c: bool, d: bool) -> bool
    ensures { result ≡ carry_out k c d }
{
    match k {
        Shift::Inc | Shift::Dec => c,
        _ => d,
    }
}

fn from_top(k: Shift) -> bool
    ensures { result ≡ from_top k }
{
    matches!(k, Shift::Lsr | Shift::Ror)
}

fn both_bytes(k: Shift, v: u16, f: Flags) -> Word
    ensures { result ≡ both_bytes k (from_top k) v f }
{
    if from_top(k) {
        let h = shift_byte(k, Ends::BOTH, high(v), f);
        let l = shift_byte(k, Ends::NEITHER, low(v), h.flags);
        Word {
            word: join(l.byte, h.byte),
            flags: l.flags,
        }
    } else {
        let l = shift_byte(k, Ends::LOW, low(v), f);
        let h = shift_byte(k, Ends::HIGH, high(v), l.flags);
        Word {
            word: join(l.byte, h.byte),
            flags: h.flags,
        }
    }
}

fn one_byte(k: Shift, v: u16, f: Flags) -> Word
    ensures { result ≡ one_byte k v f }
{
    let l = shift_byte(k, Ends::BOTH, low(v), f);
    Word {
        word: with_low(v, l.byte),
        flags: l.flags,
    }
}

fn ended(k: Shift, c: bool, t: Word) -> Word
    ensures { result ≡ ending k c t }
{
    let f = t.flags;
    Word {
        flags: with_carry(carry_out(k, c, f.carry), f),
        ..t
    }
}

// A shift or a step at its width; at 8 bits the high byte is kept.
pub fn shift_at(k: Shift, wide: bool, v: u16, f: Flags) -> Word
    ensures { result ≡ shifted_at k wide v f }
{
    let g = with_carry(carry_in(k, f.carry), f);
    if wide {
        ended(k, f.carry, both_bytes(k, v, g))
    } else {
        ended(k, f.carry, one_byte(k, v, g))
    }
}
