// The cycles of operands, stores, and instructions of one byte: the lists of specs/Cycles.antt, read by number.
ghost use Rattle.std.specs.Prelude.{◌≡◌, get_or, true, false};
ghost use Rattle.cycles.specs.Cycles.{absolute, direct, immediate, implied, mask, read_far, read_near, store_far, store_near, wdm, xba};

use crate::row::{cycle, last, on};
use crate::types::{Ask, Change, Cycle, Move, To};
use cpu::types::Part;

pub fn immediate_at(w: bool, tcu: u8) -> Option<Cycle>
    ensures { result ≡ get_or (immediate w) tcu None }
{
    if w {
        match tcu {
            1 => cycle(Ask::Program, Move::Step, Change::Operate(Part::Low), To::On),
            2 => cycle(
                Ask::Program,
                Move::Step,
                Change::Operate(Part::High),
                To::End,
            ),
            _ => None,
        }
    } else {
        match tcu {
            1 => cycle(
                Ask::Program,
                Move::Step,
                Change::Operate(Part::Only),
                To::End,
            ),
            _ => None,
        }
    }
}

pub fn absolute_at(w: bool, tcu: u8) -> Option<Cycle>
    ensures { result ≡ get_or (absolute (read_far w)) tcu None }
{
    if w {
        match tcu {
            1 => on(Ask::Program, Move::AddrLow),
            2 => on(Ask::Program, Move::AddrHigh),
            3 => cycle(Ask::Far, Move::Stay, Change::Operate(Part::Low), To::On),
            4 => cycle(
                Ask::FarNext,
                Move::Stay,
                Change::Operate(Part::High),
                To::End,
            ),
            _ => None,
        }
    } else {
        match tcu {
            1 => on(Ask::Program, Move::AddrLow),
            2 => on(Ask::Program, Move::AddrHigh),
            3 => cycle(Ask::Far, Move::Stay, Change::Operate(Part::Only), To::End),
            _ => None,
        }
    }
}

// A list stands whole for each case, as document 01 has it, though they differ in a cycle.
pub fn direct_unaligned_at(w: bool, tcu: u8) -> Option<Cycle>
    ensures { result ≡ get_or (direct true (read_near w)) tcu None }
{
    if w {
        match tcu {
            1 => on(Ask::Program, Move::Offset),
            2 => on(Ask::IdleBack, Move::Stay),
            3 => cycle(Ask::Near, Move::Stay, Change::Operate(Part::Low), To::On),
            4 => cycle(
                Ask::NearNext,
                Move::Stay,
                Change::Operate(Part::High),
                To::End,
            ),
            _ => None,
        }
    } else {
        match tcu {
            1 => on(Ask::Program, Move::Offset),
            2 => on(Ask::IdleBack, Move::Stay),
            3 => cycle(Ask::Near, Move::Stay, Change::Operate(Part::Only), To::End),
            _ => None,
        }
    }
}

pub fn direct_aligned_at(w: bool, tcu: u8) -> Option<Cycle>
    ensures { result ≡ get_or (direct false (read_near w)) tcu None }
{
    if w {
        match tcu {
            1 => on(Ask::Program, Move::Offset),
            2 => cycle(Ask::Near, Move::Stay, Change::Operate(Part::Low), To::On),
            3 => cycle(
                Ask::NearNext,
                Move::Stay,
                Change::Operate(Part::High),
                To::End,
            ),
            _ => None,
        }
    } else {
        match tcu {
            1 => on(Ask::Program, Move::Offset),
            2 => cycle(Ask::Near, Move::Stay, Change::Operate(Part::Only), To::End),
            _ => None,
        }
    }
}

pub fn store_absolute_at(w: bool, tcu: u8) -> Option<Cycle>
    ensures { result ≡ get_or (absolute (store_far w)) tcu None }
{
    if w {
        match tcu {
            1 => on(Ask::Program, Move::AddrLow),
            2 => on(Ask::Program, Move::AddrHigh),
            3 => on(Ask::StoreFar, Move::Stay),
            4 => last(Ask::StoreFarNext, Move::Stay),
            _ => None,
        }
    } else {
        match tcu {
            1 => on(Ask::Program, Move::AddrLow),
            2 => on(Ask::Program, Move::AddrHigh),
            3 => last(Ask::StoreFar, Move::Stay),
            _ => None,
        }
    }
}

pub fn store_unaligned_at(w: bool, tcu: u8) -> Option<Cycle>
    ensures { result ≡ get_or (direct true (store_near w)) tcu None }
{
    if w {
        match tcu {
            1 => on(Ask::Program, Move::Offset),
            2 => on(Ask::IdleBack, Move::Stay),
            3 => on(Ask::StoreNear, Move::Stay),
            4 => last(Ask::StoreNearNext, Move::Stay),
            _ => None,
        }
    } else {
        match tcu {
            1 => on(Ask::Program, Move::Offset),
            2 => on(Ask::IdleBack, Move::Stay),
            3 => last(Ask::StoreNear, Move::Stay),
            _ => None,
        }
    }
}

pub fn store_aligned_at(w: bool, tcu: u8) -> Option<Cycle>
    ensures { result ≡ get_or (direct false (store_near w)) tcu None }
{
    if w {
        match tcu {
            1 => on(Ask::Program, Move::Offset),
            2 => on(Ask::StoreNear, Move::Stay),
            3 => last(Ask::StoreNearNext, Move::Stay),
            _ => None,
        }
    } else {
        match tcu {
            1 => on(Ask::Program, Move::Offset),
            2 => last(Ask::StoreNear, Move::Stay),
            _ => None,
        }
    }
}

pub fn implied_at(tcu: u8) -> Option<Cycle>
    ensures { result ≡ get_or implied tcu None }
{
    match tcu {
        1 => cycle(Ask::Idle, Move::Stacked, Change::Apply, To::End),
        _ => None,
    }
}

pub fn xba_at(tcu: u8) -> Option<Cycle>
    ensures { result ≡ get_or xba tcu None }
{
    match tcu {
        1 => on(Ask::Idle, Move::Stay),
        2 => cycle(Ask::Idle, Move::Stay, Change::Apply, To::End),
        _ => None,
    }
}

pub fn mask_at(tcu: u8) -> Option<Cycle>
    ensures { result ≡ get_or mask tcu None }
{
    match tcu {
        1 => cycle(Ask::Program, Move::Step, Change::Mask, To::On),
        2 => last(Ask::Idle, Move::Stay),
        _ => None,
    }
}

pub fn wdm_at(tcu: u8) -> Option<Cycle>
    ensures { result ≡ get_or wdm tcu None }
{
    match tcu {
        1 => last(Ask::Program, Move::Step),
        _ => None,
    }
}

pub fn direct_at(w: bool, d: bool, tcu: u8) -> Option<Cycle>
    ensures { result ≡ get_or (direct d (read_near w)) tcu None }
{
    if d {
        direct_unaligned_at(w, tcu)
    } else {
        direct_aligned_at(w, tcu)
    }
}

pub fn store_direct_at(w: bool, d: bool, tcu: u8) -> Option<Cycle>
    ensures { result ≡ get_or (direct d (store_near w)) tcu None }
{
    if d {
        store_unaligned_at(w, tcu)
    } else {
        store_aligned_at(w, tcu)
    }
}
