// The cycles of jumps, calls, returns, branches and moves: the lists of specs/Cycles.antt, read by number.
ghost use Rattle.std.specs.Prelude.{◌≡◌, get_or};
ghost use Rattle.cycles.specs.Cycles.{branch, branch_long, call, call_indexed, call_long, jump, jump_indexed, jump_indirect, jump_indirect_long, jump_long, move, return, return_long};

use cycles::row::{cycle, last, on};
use cycles::types::{Ask, Change, Cycle, Move, To};

pub fn jump_at(tcu: u8) -> Option<Cycle>
    ensures { result ≡ get_or jump tcu None }
{
    match tcu {
        1 => on(Ask::Program, Move::DataLow),
        2 => last(Ask::Program, Move::JumpRead),
        _ => None,
    }
}

pub fn jump_long_at(tcu: u8) -> Option<Cycle>
    ensures { result ≡ get_or jump_long tcu None }
{
    match tcu {
        1 => on(Ask::Program, Move::AddrLow),
        2 => on(Ask::Program, Move::AddrHigh),
        3 => cycle(Ask::Program, Move::JumpAddr, Change::Keep, To::EndByte),
        _ => None,
    }
}

pub fn jump_indirect_at(tcu: u8) -> Option<Cycle>
    ensures { result ≡ get_or jump_indirect tcu None }
{
    match tcu {
        1 => on(Ask::Program, Move::AddrLow),
        2 => on(Ask::Program, Move::AddrHigh),
        3 => on(Ask::Near, Move::ReadLow),
        4 => last(Ask::NearNext, Move::JumpRead),
        _ => None,
    }
}

pub fn jump_indirect_long_at(tcu: u8) -> Option<Cycle>
    ensures { result ≡ get_or jump_indirect_long tcu None }
{
    match tcu {
        1 => on(Ask::Program, Move::AddrLow),
        2 => on(Ask::Program, Move::AddrHigh),
        3 => on(Ask::Near, Move::ReadLow),
        4 => on(Ask::NearNext, Move::ReadHigh),
        5 => cycle(Ask::NearThird, Move::JumpData, Change::Keep, To::EndByte),
        _ => None,
    }
}

pub fn jump_indexed_at(tcu: u8) -> Option<Cycle>
    ensures { result ≡ get_or jump_indexed tcu None }
{
    match tcu {
        1 => on(Ask::Program, Move::AddrLow),
        2 => on(Ask::Program, Move::AddrHigh),
        3 => on(Ask::IdleBack, Move::Stay),
        4 => on(Ask::Table, Move::ReadLow),
        5 => last(Ask::TableNext, Move::JumpRead),
        _ => None,
    }
}

pub fn call_at(tcu: u8) -> Option<Cycle>
    ensures { result ≡ get_or call tcu None }
{
    match tcu {
        1 => on(Ask::Program, Move::AddrLow),
        2 => on(Ask::Program, Move::AddrLast),
        3 => on(Ask::Idle, Move::Stay),
        4 => on(Ask::PushPcHigh, Move::PushPaged),
        5 => last(Ask::PushPcLow, Move::Call),
        _ => None,
    }
}

pub fn call_indexed_at(tcu: u8) -> Option<Cycle>
    ensures { result ≡ get_or call_indexed tcu None }
{
    match tcu {
        1 => on(Ask::Program, Move::AddrLow),
        2 => on(Ask::PushPcHigh, Move::PushPaged),
        3 => on(Ask::PushPcLow, Move::PushPaged),
        4 => on(Ask::Program, Move::AddrLast),
        5 => on(Ask::Idle, Move::Stay),
        6 => on(Ask::Table, Move::ReadLow),
        7 => last(Ask::TableNext, Move::JumpRead),
        _ => None,
    }
}

pub fn call_long_at(tcu: u8) -> Option<Cycle>
    ensures { result ≡ get_or call_long tcu None }
{
    match tcu {
        1 => on(Ask::Program, Move::AddrLow),
        2 => on(Ask::Program, Move::AddrHigh),
        3 => on(Ask::PushPbr, Move::PushRaw),
        4 => on(Ask::IdleStack, Move::Stay),
        5 => on(Ask::Program, Move::BankByte),
        6 => on(Ask::PushPcHigh, Move::PushRaw),
        7 => cycle(Ask::PushPcLow, Move::Call, Change::Keep, To::EndBank),
        _ => None,
    }
}

pub fn return_at(tcu: u8) -> Option<Cycle>
    ensures { result ≡ get_or return tcu None }
{
    match tcu {
        1 => on(Ask::Idle, Move::Stay),
        2 => on(Ask::Idle, Move::Stay),
        3 => on(Ask::PullPaged, Move::PcLowPaged),
        4 => on(Ask::PullPaged, Move::PcHighPaged),
        5 => last(Ask::IdleHome, Move::Step),
        _ => None,
    }
}

pub fn return_long_at(tcu: u8) -> Option<Cycle>
    ensures { result ≡ get_or return_long tcu None }
{
    match tcu {
        1 => on(Ask::Idle, Move::Stay),
        2 => on(Ask::Idle, Move::Stay),
        3 => on(Ask::PullHome, Move::PcLowHome),
        4 => on(Ask::PullRaw, Move::PcHighRaw),
        5 => cycle(Ask::PullRaw, Move::ReturnLong, Change::Keep, To::EndByte),
        _ => None,
    }
}

pub fn branch_at(e: bool, tcu: u8) -> Option<Cycle>
    ensures { result ≡ get_or (branch e) tcu None }
{
    if e {
        match tcu {
            1 => cycle(Ask::Program, Move::Branch, Change::Keep, To::Taken),
            2 => cycle(Ask::Idle, Move::Take, Change::Keep, To::Crossed),
            3 => last(Ask::IdleAfter, Move::Stay),
            _ => None,
        }
    } else {
        match tcu {
            1 => cycle(Ask::Program, Move::Branch, Change::Keep, To::Taken),
            2 => last(Ask::Idle, Move::Take),
            _ => None,
        }
    }
}

pub fn branch_long_at(tcu: u8) -> Option<Cycle>
    ensures { result ≡ get_or branch_long tcu None }
{
    match tcu {
        1 => on(Ask::Program, Move::AddrLow),
        2 => on(Ask::Program, Move::AddrLast),
        3 => last(Ask::Idle, Move::TakeLong),
        _ => None,
    }
}

pub fn move_at(tcu: u8) -> Option<Cycle>
    ensures { result ≡ get_or move tcu None }
{
    match tcu {
        0 => on(Ask::Opcode, Move::Step),
        1 => on(Ask::Program, Move::MoveTo),
        2 => on(Ask::Program, Move::MoveFrom),
        3 => on(Ask::MoveRead, Move::ReadLow),
        4 => on(Ask::MoveWrite, Move::MoveStore),
        5 => on(Ask::MoveIdle, Move::Stay),
        6 => cycle(Ask::MoveIdle, Move::MoveEnd, Change::MoveByte, To::Moved),
        _ => None,
    }
}
