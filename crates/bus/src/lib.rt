// What a cycle asks of the bus.
#![tactic(auto)]

ghost use Rattle.std.specs.Prelude.{◌≡◌};
ghost use Rattle.bus.specs.Bus.{reads, writes, here, far, far_next, entry, given, pushes, ask_of};
ghost use Rattle.words.specs.Words.{at};
ghost use Rattle.cpu.specs.Record.{pulled};

use cpu::record::{regs, source, stack_pop};
use cpu::types::{Kind, Record, Request, Stack};
use cycles::types::Ask;
use opcodes::operation::source_in;
use opcodes::types::Operation;
use words::{add, add24, address, down, high, low, page_one, up};

pub fn read(kind: Kind, addr: u32) -> Request
    ensures { result ≡ reads kind addr }
{
    Request {
        write: false,
        kind,
        addr,
        byte: 0,
    }
}

fn write(addr: u32, byte: u8) -> Request
    ensures { result ≡ writes addr byte }
{
    Request {
        write: true,
        kind: Kind::Data,
        addr,
        byte,
    }
}

// The program's next byte.
pub fn code(r: Record) -> u32
    ensures { result ≡ here r }
{
    address(r.pbr, r.pc)
}

// Absolute data, and the byte after them.
fn absolute(r: Record) -> u32
    ensures { result ≡ far r }
{
    address(r.dbr, r.tempaddr)
}

fn absolute_next(r: Record) -> u32
    ensures { result ≡ far_next r }
{
    add24(absolute(r), 1)
}

// An entry of a table of addresses.
fn table(r: Record) -> u16
    ensures { result ≡ entry r }
{
    add(r.tempaddr, r.x)
}

// Where a pull reads.
fn pull(k: Stack, r: Record) -> u32
    ensures { result ≡ at 0 (pulled k r.flags.emulation r.s) }
{
    address(0, stack_pop(k, r.flags.emulation, r.s))
}

// The value that is stored or pushed.
fn value(o: Operation, r: Record) -> u16
    ensures { result ≡ given o r }
{
    source(source_in(o), regs(r), r.pbr, r.dbr)
}

fn push(r: Record, byte: u8) -> Request
    ensures { result ≡ pushes r byte }
{
    write(address(0, r.s), byte)
}

// A cycle's request: from the record alone.
pub fn ask(q: Ask, o: Operation, r: Record) -> Request
    ensures { result ≡ ask_of q o r }
{
    match q {
        Ask::Program => read(Kind::Program, code(r)),
        Ask::Idle => read(Kind::Invalid, code(r)),
        Ask::IdleBack => read(Kind::Invalid, address(r.pbr, down(r.pc))),
        Ask::IdleAfter => read(Kind::Invalid, address(r.pbr, r.tempdata)),
        Ask::IdleStack => read(Kind::Invalid, address(0, up(r.s))),
        Ask::IdleHome => read(Kind::Invalid, address(0, page_one(r.flags.emulation, r.s))),
        Ask::Opcode => read(Kind::Opcode, code(r)),
        Ask::Far => read(Kind::Data, absolute(r)),
        Ask::FarNext => read(Kind::Data, absolute_next(r)),
        Ask::Near => read(Kind::Data, address(0, r.tempaddr)),
        Ask::NearNext => read(Kind::Data, address(0, up(r.tempaddr))),
        Ask::NearThird => read(Kind::Data, address(0, up(up(r.tempaddr)))),
        Ask::Table => read(Kind::Program, address(r.pbr, table(r))),
        Ask::TableNext => read(Kind::Program, address(r.pbr, up(table(r)))),
        Ask::PullPaged => read(Kind::Data, pull(Stack::Paged, r)),
        Ask::PullRaw => read(Kind::Data, pull(Stack::Raw, r)),
        Ask::PullHome => read(Kind::Data, pull(Stack::Home, r)),
        Ask::StoreFar => write(absolute(r), low(value(o, r))),
        Ask::StoreFarNext => write(absolute_next(r), high(value(o, r))),
        Ask::StoreNear => write(address(0, r.tempaddr), low(value(o, r))),
        Ask::StoreNearNext => write(address(0, up(r.tempaddr)), high(value(o, r))),
        Ask::PushLow => push(r, low(value(o, r))),
        Ask::PushHigh => push(r, high(value(o, r))),
        Ask::PushPcLow => push(r, low(r.pc)),
        Ask::PushPcHigh => push(r, high(r.pc)),
        Ask::PushDataLow => push(r, low(r.tempdata)),
        Ask::PushDataHigh => push(r, high(r.tempdata)),
        Ask::PushPbr => push(r, r.pbr),
        Ask::MoveRead => read(Kind::Data, address(low(r.tempaddr), r.x)),
        Ask::MoveWrite => write(address(r.tempbank, r.y), low(r.tempdata)),
        Ask::MoveIdle => read(Kind::Invalid, address(r.tempbank, r.y)),
    }
}
