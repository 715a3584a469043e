// What an operation makes of the registers. The crate's macros are functions over a register's name here, and the closures
// that it hands to `rwb` a match on the operation.
ghost use Rattle.std.specs.Prelude.{◌≡◌, false};
ghost use Rattle.flags.specs.Flags.{set_nvzc, set_id};
ghost use Rattle.alu.specs.Alu.{with_carry};
ghost use Rattle.cpu.specs.Registers.{operates, pulls, transfers, wholly, directs, set_d, set_flags, shifts, swaps, masks, moves, applied, stack_of};
ghost use Rattle.words.specs.Words.{low_set};

use crate::registers::{
    ends_of, half_of, is_wide, step, value_of, with_d, with_flags, with_half, with_value,
};
use crate::types::{One, Part, Reg, Regs};
use alu::ops::operate;
use alu::shifts::shift_at;
use alu::types::{Alu, Shift};
use words::{choose, down, index_at, low, swap, with_high, with_low};

// A byte of an operation between a register and what was read.
#[tactic(auto, unfolding(crate::specs::Registers::operates))]
pub fn operated(k: Alu, r: Reg, p: Part, b: u8, g: Regs) -> Regs
    ensures { result ≡ operates k r p b g }
{
    let v = value_of(r, g);
    let f = g.flags;
    let o = operate(k, ends_of(p), half_of(p, v), b, f);
    with_flags(o.flags, with_value(r, with_half(p, v, o.byte), g))
}

// A byte of PLA, PLX or PLY: the flags come with the last one. The crate's `pull16!`.
#[tactic(auto, unfolding(crate::specs::Registers::pulls))]
pub fn pulled(r: Reg, p: Part, b: u8, g: Regs) -> Regs
    ensures { result ≡ pulls r p b g }
{
    let f = g.flags;
    let v = value_of(r, g);
    match p {
        Part::Only => with_flags(f.set_nz(b as u16, false), with_value(r, with_low(v, b), g)),
        Part::Low => with_value(r, with_low(v, b), g),
        Part::High => {
            let w = with_high(v, b);
            with_flags(f.set_nz(w, true), with_value(r, w, g))
        }
    }
}

// A value into a register at its width, with N and Z. The crate's `transfer!` and `inc_index!`.
#[tactic(auto, unfolding(crate::specs::Registers::transfers))]
fn transferred(r: Reg, v: u16, g: Regs) -> Regs
    ensures { result ≡ transfers r v g }
{
    let f = g.flags;
    let wide = is_wide(r, f.memsel, f.indexsel);
    let w = choose(wide, v, with_low(value_of(r, g), low(v)));
    with_flags(f.set_nz(v, wide), with_value(r, w, g))
}

// TSC and TDC: all 16 bits of A.
#[tactic(auto, unfolding(crate::specs::Registers::wholly))]
pub fn whole(v: u16, g: Regs) -> Regs
    ensures { result ≡ wholly v g }
{
    Regs {
        a: v,
        flags: g.flags.set_nz(v, true),
        ..g
    }
}

#[tactic(auto, unfolding(crate::specs::Registers::directs))]
pub fn direct(v: u16, g: Regs) -> Regs
    ensures { result ≡ directs v g }
{
    Regs {
        d: v,
        flags: g.flags.set_nz(v, true),
        ..g
    }
}

pub fn direct_low(b: u8, g: Regs) -> Regs
    ensures { result ≡ set_d (low_set g.d b) g }
{
    with_d(with_low(g.d, b), g)
}

// A shift or a step of the accumulator at its width.
#[tactic(auto, unfolding(crate::specs::Registers::shifts))]
pub fn shifted(k: Shift, g: Regs) -> Regs
    ensures { result ≡ shifts k g }
{
    let f = g.flags;
    let o = shift_at(k, !f.memsel, g.a, f);
    Regs {
        a: o.word,
        flags: o.flags,
        ..g
    }
}

// XBA: N and Z of the new low byte.
#[tactic(auto, unfolding(crate::specs::Registers::swaps))]
pub fn swapped(g: Regs) -> Regs
    ensures { result ≡ swaps g }
{
    let w = swap(g.a);
    Regs {
        a: w,
        flags: g.flags.set_nz(w, false),
        ..g
    }
}

fn carry(c: bool, g: Regs) -> Regs
    ensures { result ≡ set_flags (with_carry c g.flags) g }
{
    let f = g.flags;
    with_flags(f.set_nvzc(f.negative, f.overflow, f.zero, c), g)
}

fn interrupt(i: bool, g: Regs) -> Regs
    ensures { result ≡ set_flags (set_id g.flags i g.flags.decimal) g }
{
    let f = g.flags;
    with_flags(f.set_id(i, f.decimal), g)
}

fn decimal(d: bool, g: Regs) -> Regs
    ensures { result ≡ set_flags (set_id g.flags g.flags.interruptdisable d) g }
{
    let f = g.flags;
    with_flags(f.set_id(f.interruptdisable, d), g)
}

fn clear_overflow(g: Regs) -> Regs
    ensures { result ≡ set_flags (set_nvzc g.flags g.flags.negative false g.flags.zero g.flags.carry) g }
{
    let f = g.flags;
    with_flags(f.set_nvzc(f.negative, false, f.zero, f.carry), g)
}

// REP and SEP: setting the index flag clears the high bytes of X and Y at once.
#[tactic(auto, unfolding(crate::specs::Registers::masks))]
pub fn masked(to: bool, b: u8, g: Regs) -> Regs
    ensures { result ≡ masks to b g }
{
    let f = g.flags.set_mask(b, to);
    Regs {
        x: index_at(f.indexsel, g.x),
        y: index_at(f.indexsel, g.y),
        flags: f,
        ..g
    }
}

// A byte of a move: A falls by 1 as 16 bits at either width.
#[tactic(auto, unfolding(crate::specs::Registers::moves))]
pub fn moved(ups: bool, g: Regs) -> Regs
    ensures { result ≡ moves ups g }
{
    let f = g.flags;
    Regs {
        a: down(g.a),
        x: index_at(f.indexsel, step(ups, g.x)),
        y: index_at(f.indexsel, step(ups, g.y)),
        ..g
    }
}

// The registers after an instruction of one byte.
pub fn apply(k: One, s: u16, g: Regs) -> Regs
    ensures { result ≡ applied k s g }
{
    let f = g.flags;
    match k {
        One::Accumulator(t) => shifted(t, g),
        One::Carry(t) => carry(t, g),
        One::Interrupt(t) => interrupt(t, g),
        One::Decimal(t) => decimal(t, g),
        One::Clv => clear_overflow(g),
        One::Nop | One::Txs | One::Tcs => g,
        One::Xce => with_flags(f.swap_ce(), g),
        One::Xba => swapped(g),
        One::Transfer(from, to) => transferred(to, value_of(from, g), g),
        One::Index(r, ups) => transferred(r, step(ups, value_of(r, g)), g),
        One::Tsx => transferred(Reg::X, s, g),
        One::Tsc => whole(s, g),
        One::Tcd => direct(g.a, g),
        One::Tdc => whole(g.d, g),
    }
}

// S after an instruction of one byte.
pub fn stack_of(k: One, s: u16, g: Regs) -> u16
    ensures { result ≡ stack_of k s g }
{
    match k {
        One::Txs => g.x,
        One::Tcs => g.a,
        _ => s,
    }
}
