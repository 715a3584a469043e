// Whole instructions at a time, where they are quick ones and stay inside the memory: what their cycles come to, without a record between them.
ghost use Rattle.std.specs.Prelude.{◌≡◌, ◌&&◌, ◌+◌, ◌<◌, eqb, ltb, length, get_or};
ghost use Rattle.words.specs.Words.{pick, bit, word, inc, sum16};
ghost use Rattle.cpu.specs.Registers.{applied, stack_of};
ghost use Rattle.cpu.specs.Record.{regs_of};
ghost use Rattle.cycles.specs.Cycles.{unaligned};
ghost use Rattle.quick.specs.Quick.{goes};
ghost use Rattle.quick.specs.declared.types.Quick.TheVariants.{Read, Store};
ghost use Rattle.stride.specs.Strides.{fresh, cleared_of, spot, leg, kept, placed, opcode, operand, branching, spot_of, leg_by, mem_by, leg_of, mem_of, stretch, strode_by, stride_of, stride_mem};

use crate::types::{Leg, Spot, Stretch};
use alu::types::Alu;
use brisk::regs::{applied, worked};
use cpu::change::stack_of;
use cpu::record::{finished, is_wide_source, source};
use cpu::registers::is_wide;
use cpu::types::{One, Record, Reg, Regs, Source};
use flags::Flags;
use quick::quick;
use quick::types::{Mode, Quick, Test};
use words::{add, add_signed, both, choose, high, join, low, one_if, same_page, up};

// The registers, flag by flag: a copy of all nine at once makes a processor wait for those that were written one by one.
// `cpu::record::regs` copies them at once: flag by flag it halved the speed of a session (docs/SPEED.md).
fn regs(r: Record) -> Regs
    ensures { result ≡ regs_of r }
{
    let f = r.flags;
    Regs {
        a: r.a,
        x: r.x,
        y: r.y,
        d: r.d,
        flags: Flags {
            carry: f.carry,
            zero: f.zero,
            interruptdisable: f.interruptdisable,
            decimal: f.decimal,
            indexsel: f.indexsel,
            memsel: f.memsel,
            overflow: f.overflow,
            negative: f.negative,
            emulation: f.emulation,
        },
    }
}

fn peek(mem: &[u8; 65536], p: u16) -> u8
    ensures { result ≡ get_or mem.now p 0 }
{
    mem[p as usize]
}

fn peek_word(mem: &[u8; 65536], p: u16) -> u16
    ensures { result ≡ word (get_or mem.now p 0) (get_or mem.now (inc p) 0) }
{
    join(peek(mem, p), peek(mem, up(p)))
}

fn immediate(wide: bool, pc: u16) -> Spot
    ensures { result ≡ spot (inc pc) (2 + bit wide) (pick wide (inc (inc (inc pc))) (inc (inc pc))) }
{
    let p = up(pc);
    let q = up(p);
    Spot {
        place: p,
        cycles: 2 + one_if(wide),
        pc: choose(wide, up(q), q),
    }
}

fn direct(wide: bool, pc: u16, d: u16, offset: u8) -> Spot
    ensures { result ≡ spot (sum16 d offset) (3 + bit wide + bit (unaligned d)) (inc (inc pc)) }
{
    Spot {
        place: add(d, offset as u16),
        cycles: 3 + one_if(wide) + one_if(low(d) != 0),
        pc: up(up(pc)),
    }
}

// Both bytes in bank 0, whether or not the second is read.
fn is_inside(dbr: u8, p: u16) -> bool
    ensures { result ≡ (eqb dbr 0 && ltb p 65535) }
{
    both(dbr == 0, p < 65535)
}

fn absolute(wide: bool, pc: u16, dbr: u8, p: u16) -> Option<Spot>
    ensures { result ≡ pick (eqb dbr 0 && ltb p 65535) (Some (spot p (4 + bit wide) (inc (inc (inc pc))))) None }
{
    if !is_inside(dbr, p) {
        return None;
    }
    Some(Spot {
        place: p,
        cycles: 4 + one_if(wide),
        pc: up(up(up(pc))),
    })
}

// An operand's spot; none where it lies outside the memory.
fn spot_of(mode: Mode, wide: bool, r: Record, mem: &[u8; 65536]) -> Option<Spot>
    ensures { result ≡ spot_of r mem.now mode wide }
{
    match mode {
        Mode::Immediate => Some(immediate(wide, r.pc)),
        Mode::Direct => Some(direct(wide, r.pc, r.d, peek(mem, up(r.pc)))),
        Mode::Absolute => absolute(wide, r.pc, r.dbr, peek_word(mem, up(r.pc))),
    }
}

fn read(mode: Mode, k: Alu, g: Reg, r: Record, mem: &[u8; 65536]) -> Option<Leg>
    ensures { result ≡ leg_by r mem.now (Read mode k g) }
{
    let f = r.flags;
    let wide = is_wide(g, f.memsel, f.indexsel);
    let t = spot_of(mode, wide, r, mem)?;
    let after = worked(
        k,
        g,
        wide,
        peek(mem, t.place),
        peek(mem, up(t.place)),
        regs(r),
    );
    Some(Leg {
        cycles: t.cycles,
        pc: t.pc,
        s: r.s,
        dbr: r.dbr,
        regs: after,
    })
}

fn poke(wide: bool, p: u16, v: u16, mem: &mut [u8; 65536])
    ensures { mem.new ≡ placed wide p v mem.old }
{
    mem[p as usize] = low(v);
    if wide {
        mem[up(p) as usize] = high(v);
    }
}

fn store(mode: Mode, k: Source, r: Record, mem: &mut [u8; 65536]) -> Option<Leg>
    ensures { (result ≡ leg_by r mem.old (Store mode k)) × (mem.new ≡ mem_by r mem.old (Store mode k)) }
{
    let f = r.flags;
    let wide = is_wide_source(k, f.memsel, f.indexsel);
    let t = spot_of(mode, wide, r, mem)?;
    poke(wide, t.place, source(k, regs(r), r.pbr, r.dbr), mem);
    Some(kept(t.cycles, t.pc, r))
}

// A leg that changes no register.
fn kept(cycles: u8, pc: u16, r: Record) -> Leg
    ensures { result ≡ leg cycles pc r.s r.dbr (regs_of r) }
{
    Leg {
        cycles,
        pc,
        s: r.s,
        dbr: r.dbr,
        regs: regs(r),
    }
}

fn one(k: One, r: Record) -> Leg
    ensures { result ≡ leg 2 (inc r.pc) (stack_of k r.s (regs_of r)) r.dbr (applied k r.s (regs_of r)) }
{
    Leg {
        cycles: 2,
        pc: up(r.pc),
        s: stack_of(k, r.s, regs(r)),
        dbr: r.dbr,
        regs: applied(k, r.s, regs(r)),
    }
}

fn branch_cycles(go: bool, page: bool) -> u8
    ensures { result ≡ pick go (3 + bit page) 2 }
{
    choose(go, 3 + one_if(page), 2)
}

// Whether a branch is taken: whether its flag is what it wants.
fn is_taken(k: Test, want: bool, f: Flags) -> bool
    ensures { result ≡ goes k want f }
{
    match k {
        Test::Always => true,
        Test::Carry => f.carry == want,
        Test::Zero => f.zero == want,
        Test::Negative => f.negative == want,
        Test::Overflow => f.overflow == want,
    }
}

fn branch(k: Test, want: bool, r: Record, mem: &[u8; 65536]) -> Leg
    ensures { result ≡ branching r mem.now (goes k want r.flags) }
{
    let f = r.flags;
    let past = up(up(r.pc));
    let to = add_signed(past, peek(mem, up(r.pc)));
    let go = is_taken(k, want, f);
    let page = both(f.emulation, !same_page(past, to));
    kept(branch_cycles(go, page), choose(go, to, past), r)
}

fn jump(r: Record, mem: &[u8; 65536]) -> Leg
    ensures { result ≡ leg 3 (operand r mem.now) r.s r.dbr (regs_of r) }
{
    kept(3, peek_word(mem, up(r.pc)), r)
}

// What a quick instruction comes to; none where it isn't one, or leaves the memory.
fn leg_of(q: Quick, r: Record, mem: &mut [u8; 65536]) -> Option<Leg>
    ensures { (result ≡ leg_by r mem.old q) × (mem.new ≡ mem_by r mem.old q) }
{
    match q {
        Quick::Slow => None,
        Quick::Read(mode, k, g) => read(mode, k, g, r, mem),
        Quick::Store(mode, k) => store(mode, k, r, mem),
        Quick::Do(k) => Some(one(k, r)),
        Quick::If(k, want) => Some(branch(k, want, r, mem)),
        Quick::Jump => Some(jump(r, mem)),
    }
}

fn arrive(op: u8, r: Record, l: Option<Leg>) -> Stretch
    ensures { result ≡ strode_by r op l }
{
    let Some(l) = l else {
        return stretch_of(0, r);
    };
    stretch_of(
        l.cycles as u32,
        finished(op, false, 0, l.pc, l.s, l.dbr, l.regs),
    )
}

// So many cycles at a stretch, and the record after them.
pub fn stretch_of(cycles: u32, after: Record) -> Stretch
    ensures { result ≡ stretch cycles after }
{
    Stretch { cycles, after }
}

// PC lies inside the memory: so much is known of a word that is handed over, and the law asks for it.
fn word_inside(pc: u16)
    ensures { pc < 65536 }
{}

// An instruction of a memory that is whole.
fn stride_in(r: Record, mem: &mut [u8; 65536]) -> Stretch
    ensures { (result ≡ strode_by r (opcode r mem.old) (leg_of r mem.old)) × (mem.new ≡ mem_of r mem.old) }
{
    let op = peek(mem, r.pc);
    let l = leg_of(quick(op), r, mem);
    arrive(op, r, l)
}

// Whether whole instructions can start here.
pub fn is_fresh(r: Record) -> bool
    ensures { result ≡ fresh r }
{
    both(both(r.pbr == 0, !r.held), both(r.ir == 0, r.tcu == 0))
}

// What a fresh record is anyway: said once, it needn't be carried from turn to turn.
pub fn cleared(r: Record) -> Record
    ensures { result ≡ cleared_of r }
{
    Record {
        pbr: 0,
        held: false,
        ir: 0,
        tcu: 0,
        tempaddr: 0,
        tempdata: 0,
        tempbank: 0,
        ..r
    }
}

// An instruction from a fresh record; none where it has to be done cycle by cycle.
pub fn stride(r: Record, mem: &mut [u8]) -> Stretch
    ensures value { (result ≡ stride_of r mem.old) × (mem.new ≡ stride_mem r mem.old) }
    ensures inside { r.pc < 65536 }
{
    word_inside(r.pc);
    let Some(whole) = mem.as_mut_array::<65536>() else {
        return stretch_of(0, r);
    };
    stride_in(r, whole)
}
