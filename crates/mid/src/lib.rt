// What a cycle does to PC, S, DBR and the scratch words.
#![tactic(auto)]

ghost use Rattle.std.specs.Prelude.{◌≡◌};
ghost use Rattle.words.specs.Words.{pick, inc, dec};
ghost use Rattle.cpu.specs.Record.{mid_of, regs_of, pushed, pulled};
ghost use Rattle.cpu.specs.Registers.{stack_of};
ghost use Rattle.opcodes.specs.Opcodes.{one_in};
ghost use Rattle.mid.specs.Mid.{set_pc, set_s, set_dbr, set_addr, set_data, set_bank, past, target, last_byte, mid_after};

use cpu::change::stack_of;
use cpu::record::{mid, regs, stack_pop, stack_push};
use cpu::types::{Mid, Record, Stack};
use cycles::types::Move;
use opcodes::operation::one_in;
use opcodes::types::Operation;
use words::{add, add_signed, choose, down, low, up, with_high, with_low};

fn with_pc(pc: u16, t: Mid) -> Mid
    ensures { result ≡ set_pc pc t }
{
    Mid { pc, ..t }
}

fn with_s(s: u16, t: Mid) -> Mid
    ensures { result ≡ set_s s t }
{
    Mid { s, ..t }
}

fn with_dbr(dbr: u8, t: Mid) -> Mid
    ensures { result ≡ set_dbr dbr t }
{
    Mid { dbr, ..t }
}

fn with_addr(addr: u16, t: Mid) -> Mid
    ensures { result ≡ set_addr addr t }
{
    Mid {
        tempaddr: addr,
        ..t
    }
}

fn with_data(value: u16, t: Mid) -> Mid
    ensures { result ≡ set_data value t }
{
    Mid {
        tempdata: value,
        ..t
    }
}

fn with_bank(bank: u8, t: Mid) -> Mid
    ensures { result ≡ set_bank bank t }
{
    Mid {
        tempbank: bank,
        ..t
    }
}

// The program counter one further.
pub fn step_pc(t: Mid) -> Mid
    ensures { result ≡ past t }
{
    with_pc(up(t.pc), t)
}

// Where a branch goes.
pub fn target_of(r: Record) -> u16
    ensures { result ≡ target r }
{
    add_signed(r.pc, low(r.tempaddr))
}

// Whether a move's byte is its last: A is FFFF afterwards.
pub fn is_last(r: Record) -> bool
    ensures { result ≡ last_byte r }
{
    down(r.a) == 65535
}

// PC after a move's byte: past the operand, or back at the opcode.
fn move_pc(r: Record) -> u16
    ensures { result ≡ pick (last_byte r) (inc r.pc) (dec (dec r.pc)) }
{
    choose(is_last(r), up(r.pc), down(down(r.pc)))
}

// A pull, and a push that stays in page 1 in emulation.
fn pull(k: Stack, r: Record) -> Mid
    ensures { result ≡ set_s (pulled k r.flags.emulation r.s) (mid_of r) }
{
    with_s(stack_pop(k, r.flags.emulation, r.s), mid(r))
}

fn push_paged(r: Record) -> Mid
    ensures { result ≡ set_s (pushed r.flags.emulation r.s) (mid_of r) }
{
    with_s(stack_push(r.flags.emulation, r.s), mid(r))
}

fn push_raw(r: Record) -> Mid
    ensures { result ≡ set_s (dec r.s) (mid_of r) }
{
    with_s(down(r.s), mid(r))
}

fn stacked(o: Operation, r: Record) -> Mid
    ensures { result ≡ set_s (stack_of (one_in o) r.s (regs_of r)) (mid_of r) }
{
    with_s(stack_of(one_in(o), r.s, regs(r)), mid(r))
}

pub fn mid_after(m: Move, o: Operation, r: Record, b: u8) -> Mid
    ensures { result ≡ mid_after m o r b }
{
    match m {
        Move::Stay => mid(r),
        Move::Step => step_pc(mid(r)),
        Move::AddrLow => with_addr(b as u16, step_pc(mid(r))),
        Move::AddrHigh => with_addr(with_high(r.tempaddr, b), step_pc(mid(r))),
        Move::AddrLast => with_addr(with_high(r.tempaddr, b), mid(r)),
        Move::Offset => with_addr(add(r.d, b as u16), step_pc(mid(r))),
        Move::DataLow => with_data(b as u16, step_pc(mid(r))),
        Move::DataHigh => with_data(with_high(r.tempdata, b), step_pc(mid(r))),
        Move::ReadLow => with_data(b as u16, mid(r)),
        Move::ReadHigh => with_data(with_high(r.tempdata, b), mid(r)),
        Move::BankByte => with_bank(b, mid(r)),
        Move::PullPaged => pull(Stack::Paged, r),
        Move::PullRaw => pull(Stack::Raw, r),
        Move::PullBank => with_dbr(b, pull(Stack::Raw, r)),
        Move::PushPaged => push_paged(r),
        Move::PushRaw => push_raw(r),
        Move::Stacked => stacked(o, r),
        Move::Relative => with_data(add(r.pc, r.tempaddr), mid(r)),
        Move::JumpRead => with_pc(with_high(r.tempdata, b), mid(r)),
        Move::JumpAddr => with_pc(r.tempaddr, mid(r)),
        Move::JumpData => with_pc(r.tempdata, mid(r)),
        Move::Call => with_pc(r.tempaddr, push_raw(r)),
        Move::PcLowPaged => with_pc(with_low(r.pc, b), pull(Stack::Paged, r)),
        Move::PcLowHome => with_pc(with_low(r.pc, b), pull(Stack::Home, r)),
        Move::PcHighPaged => with_pc(with_high(r.pc, b), pull(Stack::Paged, r)),
        Move::PcHighRaw => with_pc(with_high(r.pc, b), pull(Stack::Raw, r)),
        Move::ReturnLong => step_pc(pull(Stack::Raw, r)),
        Move::Branch => with_addr(b as u16, with_data(up(r.pc), step_pc(mid(r)))),
        Move::Take => with_pc(target_of(r), mid(r)),
        Move::TakeLong => with_pc(add(up(r.pc), r.tempaddr), mid(r)),
        Move::MoveTo => with_bank(b, step_pc(mid(r))),
        Move::MoveFrom => with_addr(b as u16, mid(r)),
        Move::MoveStore => with_dbr(r.tempbank, mid(r)),
        Move::MoveEnd => with_pc(move_pc(r), mid(r)),
    }
}
