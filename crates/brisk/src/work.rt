// An operation at its width in one go, where `alu::ops::operate_at` goes from byte to byte: a function that strides and single
// cycles share isn't inlined in either (docs/SPEED.md).
ghost use Rattle.std.specs.Prelude.{◌≡◌};
ghost use Rattle.words.specs.Words.{pick};
ghost use Rattle.adder.specs.Adder.{adc_of, sbc_of};
ghost use Rattle.alu.specs.Alu.{operated_at};
ghost use Rattle.alu.specs.declared.types.Alu.TheVariants.{Adc, Sbc};
ghost use Rattle.brisk.specs.Whole.{placed, compared, tested};

use adder::{Sum, adc, sbc};
use alu::types::{Alu, Word};
use flags::Flags;
use words::{both, choose, high, join, low, with_low};

// A result in a register that held a, with its N and Z.
pub fn place(wide: bool, a: u16, v: u16, f: Flags) -> Word
    ensures { result ≡ placed wide a v f }
{
    Word {
        word: choose(wide, v, with_low(a, low(v))),
        flags: f.set_nz(v, wide),
    }
}

// A byte's sum or, for SBC, its difference.
fn sum(minus: bool, decimal: bool, a: u8, b: u8, c: bool) -> Sum
    ensures { result ≡ pick minus (sbc_of decimal a b c) (adc_of decimal a b c) }
{
    if minus {
        sbc(decimal, a, b, c)
    } else {
        adc(decimal, a, b, c)
    }
}

// ADC and SBC: decimal digits go from byte to byte, and binary sums with them.
fn add(minus: bool, wide: bool, a: u16, n: u16, f: Flags) -> Word
    ensures { result ≡ operated_at (pick minus Sbc Adc) wide a n f }
{
    let l = sum(minus, f.decimal, low(a), low(n), f.carry);
    if wide {
        let h = sum(minus, f.decimal, high(a), high(n), l.carry);
        let z = both(l.byte == 0, h.byte == 0);
        Word {
            word: join(l.byte, h.byte),
            flags: f.set_nvzc(h.byte >= 128, h.overflow, z, h.carry),
        }
    } else {
        Word {
            word: with_low(a, l.byte),
            flags: f.set_nvzc(l.byte >= 128, l.overflow, l.byte == 0, l.carry),
        }
    }
}

// CMP: one difference.
fn compare(wide: bool, a: u16, b: u16, f: Flags) -> Word
    ensures { result ≡ compared wide a b f }
{
    let x = choose(wide, a, low(a) as u16);
    let y = choose(wide, b, low(b) as u16);
    let g = f.set_nz(x.wrapping_sub(y), wide);
    Word {
        word: a, // the register stays
        flags: g.set_nvzc(g.negative, g.overflow, g.zero, x >= y),
    }
}

// BIT: `signs` says that N and V are taken from the value.
fn test(wide: bool, signs: bool, a: u16, b: u16, f: Flags) -> Word
    ensures { result ≡ tested wide signs a b f }
{
    let t = choose(wide, b, (low(b) as u16) * 256);
    let n = choose(signs, t >= 32768, f.negative);
    let v = choose(signs, t / 16384 % 2 == 1, f.overflow);
    let g = f.set_nz(a & b, wide);
    Word {
        word: a,
        flags: f.set_nvzc(n, v, g.zero, f.carry),
    }
}

// An operation between a register that holds a and the value v, at its width: at 8 bits v's low byte counts and a's high byte stays.
pub fn work(k: Alu, wide: bool, a: u16, v: u16, f: Flags) -> Word
    ensures { result ≡ operated_at k wide a v f }
{
    match k {
        Alu::Adc => add(false, wide, a, v, f),
        Alu::Sbc => add(true, wide, a, v, f),
        Alu::Cmp => compare(wide, a, v, f),
        Alu::And => place(wide, a, a & v, f),
        Alu::Ora => place(wide, a, a | v, f),
        Alu::Eor => place(wide, a, a ^ v, f),
        Alu::Bit => test(wide, true, a, v, f),
        Alu::BitImmediate => test(wide, false, a, v, f),
        Alu::Load => place(wide, a, v, f),
    }
}
