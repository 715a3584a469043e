// The record: which ones are well formed, the two ways in which a cycle makes a new one, the stack, and what is stored.
ghost use Rattle.std.specs.Prelude.{◌≡◌};
ghost use Rattle.cpu.specs.Record.{number_of, kind_number, number_in, boundary, narrowed, clean, well_formed, mid_of, regs_of, under_way, ended, pushed, pulled, source_of, wide_source, holds};

use crate::registers::{is_wide, value_of};
use crate::types::{Cond, Kind, Mid, Record, Refusal, Regs, Source, Stack};
use flags::Flags;
use words::{both, choose, down, either, implies, index_at, page_one, up};

// Document 01's number of a refusal.
impl From<Refusal> for u8 {
    ghost from_gives = { λ n r. r ≡ number_of n };

    fn from(n: Refusal) -> u8 {
        match n {
            Refusal::Memory => 1,
            Refusal::Budget => 2,
            Refusal::Room => 3,
            Refusal::Malformed => 4,
            Refusal::Unlisted => 5,
            Refusal::NoCycle => 6,
            Refusal::Bank => 7,
        }
    }
}

// A kind's number, in document 01's order.
impl From<Kind> for u8 {
    ghost from_gives = { λ k r. r ≡ kind_number k };

    fn from(k: Kind) -> u8 {
        match k {
            Kind::Opcode => 0,
            Kind::Program => 1,
            Kind::Data => 2,
            Kind::Invalid => 3,
        }
    }
}

// The number of a refusal, 0 where there is none.
pub fn number_in(refusal: Option<Refusal>) -> u8
    ensures { result ≡ number_in refusal }
{
    match refusal {
        None => 0,
        Some(n) => u8::from(n),
    }
}

// An instruction's start, or a place between a move's bytes.
pub fn at_boundary(held: bool, ir: u8, tcu: u8) -> bool
    ensures { result ≡ boundary held ir tcu }
{
    implies(held, both(either(ir == 0x54, ir == 0x44), tcu == 0))
}

fn is_narrow(f: Flags, x: u16, y: u16) -> bool
    ensures { result ≡ narrowed f x y }
{
    both(
        implies(f.emulation, both(f.memsel, f.indexsel)),
        implies(f.indexsel, both(x < 256, y < 256)),
    )
}

fn is_clean(e: bool, s: u16, addr: u16, value: u16, bank: u8) -> bool
    ensures { result ≡ clean e s addr value bank }
{
    both(
        both(addr == 0, both(value == 0, bank == 0)),
        implies(e, s / 256 == 1),
    )
}

// Document 01's well-formed records; any other is refused with 4.
#[tactic(auto, unfolding(crate::specs::Record::well_formed))]
pub fn well_formed(r: Record) -> bool
    ensures { result ≡ well_formed r }
{
    let f = r.flags;
    let narrow = is_narrow(f, r.x, r.y);
    let clean = is_clean(f.emulation, r.s, r.tempaddr, r.tempdata, r.tempbank);
    both(narrow, implies(at_boundary(r.held, r.ir, r.tcu), clean))
}

// The parts of a record, by name: `Mid::from` and `Regs::from` would say no more, and `into` less.
pub fn mid(r: Record) -> Mid
    ensures { result ≡ mid_of r }
{
    Mid {
        pc: r.pc,
        s: r.s,
        dbr: r.dbr,
        tempaddr: r.tempaddr,
        tempdata: r.tempdata,
        tempbank: r.tempbank,
    }
}

pub fn regs(r: Record) -> Regs
    ensures { result ≡ regs_of r }
{
    let f = r.flags;
    Regs {
        a: r.a,
        x: r.x,
        y: r.y,
        d: r.d,
        flags: f,
    }
}

// The opcode `ir` is held and its cycle `tcu` comes next.
pub fn under_way(ir: u8, tcu: u8, pbr: u8, g: Regs, t: Mid) -> Record
    ensures { result ≡ under_way ir tcu pbr g t }
{
    let f = g.flags;
    Record {
        a: g.a,
        x: g.x,
        y: g.y,
        s: t.s,
        d: g.d,
        pc: t.pc,
        pbr,
        dbr: t.dbr,
        flags: f,
        held: true,
        ir,
        tcu,
        tempaddr: t.tempaddr,
        tempdata: t.tempdata,
        tempbank: t.tempbank,
    }
}

// An instruction's end or, if `again`, that of a move's byte. The crate's `enforce_emulation_stack` is part of every end.
#[tactic(auto, unfolding(crate::specs::Record::ended))]
pub fn finished(ir: u8, again: bool, pbr: u8, pc: u16, s: u16, dbr: u8, g: Regs) -> Record
    ensures { result ≡ ended ir again pbr pc s dbr g }
{
    let f = g.flags.settle();
    Record {
        a: g.a,
        x: index_at(f.indexsel, g.x),
        y: index_at(f.indexsel, g.y),
        s: page_one(f.emulation, s),
        d: g.d,
        pc,
        pbr,
        dbr,
        flags: f,
        held: again,
        ir: choose(again, ir, 0),
        tcu: 0,
        tempaddr: 0,
        tempdata: 0,
        tempbank: 0,
    }
}

// S after a push that stays in page 1 in emulation; `stack_push_raw` is `words::down`.
#[tactic(auto, unfolding(crate::specs::Record::pushed))]
pub fn stack_push(emulation: bool, s: u16) -> u16
    ensures { result ≡ pushed emulation s }
{
    page_one(emulation, down(s))
}

// S after a pull, and the address that is read: `stack_pop`, `stack_pop_raw`, and RTL's first.
#[tactic(auto, unfolding(crate::specs::Record::pulled))]
pub fn stack_pop(k: Stack, emulation: bool, s: u16) -> u16
    ensures { result ≡ pulled k emulation s }
{
    match k {
        Stack::Paged => page_one(emulation, up(s)),
        Stack::Raw => up(s),
        Stack::Home => up(page_one(emulation, s)),
    }
}

// The value that is stored or pushed.
pub fn source(k: Source, g: Regs, pbr: u8, dbr: u8) -> u16
    ensures { result ≡ source_of k g pbr dbr }
{
    let f = g.flags;
    match k {
        Source::Register(r) => value_of(r, g),
        Source::Zero => 0,
        Source::D => g.d,
        Source::P => f.as_byte() as u16,
        Source::Pbr => pbr as u16,
        Source::Dbr => dbr as u16,
    }
}

pub fn is_wide_source(k: Source, m: bool, x: bool) -> bool
    ensures { result ≡ wide_source k m x }
{
    match k {
        Source::Register(r) => is_wide(r, m, x),
        Source::Zero => !m,
        Source::D => true,
        Source::P | Source::Pbr | Source::Dbr => false,
    }
}

// Whether a branch is taken. The crate's `branch!`.
pub fn taken(k: Cond, f: Flags) -> bool
    ensures { result ≡ holds k f }
{
    match k {
        Cond::Always => true,
        Cond::Carry(t) => f.carry == t,
        Cond::Zero(t) => f.zero == t,
        Cond::Negative(t) => f.negative == t,
        Cond::Overflow(t) => f.overflow == t,
    }
}
