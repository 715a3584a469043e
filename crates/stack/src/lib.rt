// Pushes and pulls, cycle by cycle: the lists of crates/cycles/specs/Cycles.antt, read by number.
#![tactic(auto)]

ghost use Rattle.std.specs.Prelude.{◌≡◌, get_or};
ghost use Rattle.cycles.specs.Cycles.{pea, pei, per, pull, pull_b, pull_d, pull_p, push};

use cpu::types::Part;
use cycles::row::{cycle, last, on};
use cycles::types::{Ask, Change, Cycle, Move, To};

pub fn push_at(w: bool, tcu: u8) -> Option<Cycle>
    ensures { result ≡ get_or (push w) tcu None }
{
    if w {
        match tcu {
            1 => on(Ask::Idle, Move::Stay),
            2 => on(Ask::PushHigh, Move::PushRaw),
            3 => last(Ask::PushLow, Move::PushRaw),
            _ => None,
        }
    } else {
        match tcu {
            1 => on(Ask::Idle, Move::Stay),
            2 => last(Ask::PushLow, Move::PushRaw),
            _ => None,
        }
    }
}

pub fn pull_at(w: bool, tcu: u8) -> Option<Cycle>
    ensures { result ≡ get_or (pull w) tcu None }
{
    if w {
        match tcu {
            1 => on(Ask::Idle, Move::Stay),
            2 => on(Ask::Idle, Move::Stay),
            3 => cycle(
                Ask::PullPaged,
                Move::PullPaged,
                Change::Fill(Part::Low),
                To::On,
            ),
            4 => cycle(
                Ask::PullPaged,
                Move::PullPaged,
                Change::Fill(Part::High),
                To::End,
            ),
            _ => None,
        }
    } else {
        match tcu {
            1 => on(Ask::Idle, Move::Stay),
            2 => on(Ask::Idle, Move::Stay),
            3 => cycle(
                Ask::PullPaged,
                Move::PullPaged,
                Change::Fill(Part::Only),
                To::End,
            ),
            _ => None,
        }
    }
}

pub fn pull_p_at(tcu: u8) -> Option<Cycle>
    ensures { result ≡ get_or pull_p tcu None }
{
    match tcu {
        1 => on(Ask::Idle, Move::Stay),
        2 => on(Ask::Idle, Move::Stay),
        3 => cycle(Ask::PullPaged, Move::PullPaged, Change::Status, To::End),
        _ => None,
    }
}

pub fn pull_b_at(tcu: u8) -> Option<Cycle>
    ensures { result ≡ get_or pull_b tcu None }
{
    match tcu {
        1 => on(Ask::Idle, Move::Stay),
        2 => on(Ask::Idle, Move::Stay),
        3 => cycle(Ask::PullRaw, Move::PullBank, Change::Sign, To::End),
        _ => None,
    }
}

pub fn pull_d_at(tcu: u8) -> Option<Cycle>
    ensures { result ≡ get_or pull_d tcu None }
{
    match tcu {
        1 => on(Ask::Idle, Move::Stay),
        2 => on(Ask::Idle, Move::Stay),
        3 => cycle(Ask::PullRaw, Move::PullRaw, Change::DirectLow, To::On),
        4 => cycle(Ask::PullRaw, Move::PullRaw, Change::DirectHigh, To::End),
        _ => None,
    }
}

pub fn pea_at(tcu: u8) -> Option<Cycle>
    ensures { result ≡ get_or pea tcu None }
{
    match tcu {
        1 => on(Ask::Program, Move::DataLow),
        2 => on(Ask::Program, Move::DataHigh),
        3 => on(Ask::PushDataHigh, Move::PushRaw),
        4 => last(Ask::PushDataLow, Move::PushRaw),
        _ => None,
    }
}

pub fn pei_at(d: bool, tcu: u8) -> Option<Cycle>
    ensures { result ≡ get_or (pei d) tcu None }
{
    if d {
        match tcu {
            1 => on(Ask::Program, Move::Offset),
            2 => on(Ask::IdleBack, Move::Stay),
            3 => on(Ask::Near, Move::ReadLow),
            4 => on(Ask::NearNext, Move::ReadHigh),
            5 => on(Ask::PushDataHigh, Move::PushRaw),
            6 => last(Ask::PushDataLow, Move::PushRaw),
            _ => None,
        }
    } else {
        match tcu {
            1 => on(Ask::Program, Move::Offset),
            2 => on(Ask::Near, Move::ReadLow),
            3 => on(Ask::NearNext, Move::ReadHigh),
            4 => on(Ask::PushDataHigh, Move::PushRaw),
            5 => last(Ask::PushDataLow, Move::PushRaw),
            _ => None,
        }
    }
}

pub fn per_at(tcu: u8) -> Option<Cycle>
    ensures { result ≡ get_or per tcu None }
{
    match tcu {
        1 => on(Ask::Program, Move::AddrLow),
        2 => on(Ask::Program, Move::AddrHigh),
        3 => on(Ask::IdleBack, Move::Relative),
        4 => on(Ask::PushDataHigh, Move::PushRaw),
        5 => last(Ask::PushDataLow, Move::PushRaw),
        _ => None,
    }
}
