// What whole instructions make of the registers, in one go.
ghost use Rattle.std.specs.Prelude.{◌≡◌};
ghost use Rattle.cpu.specs.Registers.{transfers, applied};
ghost use Rattle.brisk.specs.Brisk.{effected, into_of, value_in};

use crate::work::{place, work};
use alu::types::Alu;
use cpu::change::{direct, shifted, swapped, whole};
use cpu::registers::{is_wide, step, value_of, with_flags, with_value};
use cpu::types::{One, Reg, Regs};
use words::join;

// An operation on a register at its width, by the bytes that were read: at 8 bits h is not looked at.
pub fn worked(k: Alu, r: Reg, wide: bool, l: u8, h: u8, g: Regs) -> Regs
    ensures { result ≡ effected k r wide l h g }
{
    let f = g.flags;
    let o = work(k, wide, value_of(r, g), join(l, h), f);
    with_flags(o.flags, with_value(r, o.word, g))
}

// Where a transfer or a step of an index register puts its value.
fn into_of(k: One) -> Reg
    ensures { result ≡ into_of k }
{
    match k {
        One::Transfer(_, to) => to,
        One::Index(r, _) => r,
        _ => Reg::X,
    }
}

// The value itself.
fn value_in(k: One, s: u16, g: Regs) -> u16
    ensures { result ≡ value_in k s g }
{
    match k {
        One::Transfer(from, _) => value_of(from, g),
        One::Index(r, ups) => step(ups, value_of(r, g)),
        _ => s,
    }
}

// Transfers, steps of the index registers and TSX in one place: a value into a register at its width, with N and Z.
#[tactic(auto, unfolding(cpu::specs::Registers::transfers))]
fn carried(k: One, s: u16, g: Regs) -> Regs
    ensures { result ≡ transfers (into_of k) (value_in k s g) g }
{
    let f = g.flags;
    let r = into_of(k);
    let v = value_in(k, s, g);
    let wide = is_wide(r, f.memsel, f.indexsel);
    let o = place(wide, value_of(r, g), v, f);
    with_flags(o.flags, with_value(r, o.word, g))
}

// The registers after an instruction of one byte.
pub fn applied(k: One, s: u16, g: Regs) -> Regs
    ensures { result ≡ applied k s g }
{
    let f = g.flags;
    match k {
        One::Transfer(_, _) | One::Index(_, _) | One::Tsx => carried(k, s, g),
        One::Carry(t) => with_flags(f.set_nvzc(f.negative, f.overflow, f.zero, t), g),
        One::Interrupt(t) => with_flags(f.set_id(t, f.decimal), g),
        One::Decimal(t) => with_flags(f.set_id(f.interruptdisable, t), g),
        One::Clv => with_flags(f.set_nvzc(f.negative, false, f.zero, f.carry), g),
        One::Nop | One::Txs | One::Tcs => g,
        One::Accumulator(t) => shifted(t, g),
        One::Xce => with_flags(f.swap_ce(), g),
        One::Xba => swapped(g),
        One::Tsc => whole(s, g),
        One::Tcd => direct(g.a, g),
        One::Tdc => whole(g.d, g),
    }
}
