// The cycles of a whole instruction, as a trace tells them.
#![tactic(auto)]

ghost use Rattle.std.specs.Prelude.{◌≡◌, ◌-◌};
ghost use Rattle.tracks.specs.Tracks.{track_of, second, third, is_direct, is_store, middles, place_by};

use crate::types::Track;
use cpu::types::Kind;
use words::{add, choose, join};

pub mod types;

// An opcode's track. One that takes no whole instruction has `Inside`, since no stride is made from it.
pub fn track(op: u8) -> Track
    ensures { result ≡ track_of op }
{
    match op {
        0x05 => Track::ReadDirect,
        0x09 => Track::Program,
        0x0D => Track::ReadAbsolute,
        0x10 => Track::Branch,
        0x24 => Track::ReadDirect,
        0x25 => Track::ReadDirect,
        0x29 => Track::Program,
        0x2C => Track::ReadAbsolute,
        0x2D => Track::ReadAbsolute,
        0x30 => Track::Branch,
        0x45 => Track::ReadDirect,
        0x49 => Track::Program,
        0x4C => Track::Program,
        0x4D => Track::ReadAbsolute,
        0x50 => Track::Branch,
        0x64 => Track::StoreDirect,
        0x65 => Track::ReadDirect,
        0x69 => Track::Program,
        0x6D => Track::ReadAbsolute,
        0x70 => Track::Branch,
        0x80 => Track::Branch,
        0x84 => Track::StoreDirect,
        0x85 => Track::StoreDirect,
        0x86 => Track::StoreDirect,
        0x89 => Track::Program,
        0x8C => Track::StoreAbsolute,
        0x8D => Track::StoreAbsolute,
        0x8E => Track::StoreAbsolute,
        0x90 => Track::Branch,
        0x9C => Track::StoreAbsolute,
        0xA0 => Track::Program,
        0xA2 => Track::Program,
        0xA4 => Track::ReadDirect,
        0xA5 => Track::ReadDirect,
        0xA6 => Track::ReadDirect,
        0xA9 => Track::Program,
        0xAC => Track::ReadAbsolute,
        0xAD => Track::ReadAbsolute,
        0xAE => Track::ReadAbsolute,
        0xB0 => Track::Branch,
        0xC0 => Track::Program,
        0xC4 => Track::ReadDirect,
        0xC5 => Track::ReadDirect,
        0xC9 => Track::Program,
        0xCC => Track::ReadAbsolute,
        0xCD => Track::ReadAbsolute,
        0xD0 => Track::Branch,
        0xE0 => Track::Program,
        0xE4 => Track::ReadDirect,
        0xE5 => Track::ReadDirect,
        0xE9 => Track::Program,
        0xEC => Track::ReadAbsolute,
        0xED => Track::ReadAbsolute,
        0xF0 => Track::Branch,
        _ => Track::Inside,
    }
}

// The kind of a track's second cycle.
pub fn second_kind(t: Track) -> Kind
    ensures { result ≡ second t }
{
    match t {
        Track::Inside => Kind::Invalid,
        _ => Kind::Program,
    }
}

// The kind of the cycles between the first two and the data.
pub fn third_kind(t: Track) -> Kind
    ensures { result ≡ third t }
{
    match t {
        Track::Program | Track::ReadAbsolute | Track::StoreAbsolute => Kind::Program,
        _ => Kind::Invalid,
    }
}

// Whether data lies in the direct page.
pub fn is_direct(t: Track) -> bool
    ensures { result ≡ is_direct t }
{
    matches!(t, Track::ReadDirect | Track::StoreDirect)
}

// Whether data is stored.
pub fn is_store(t: Track) -> bool
    ensures { result ≡ is_store t }
{
    matches!(t, Track::StoreDirect | Track::StoreAbsolute)
}

// What is left of n cycles without k of them.
pub fn less(n: u32, k: u32) -> u32
    ensures { result ≡ n - k }
{
    n.saturating_sub(k)
}

// How many of an instruction's n cycles lie between the first two and the data.
pub fn between(t: Track, skew: bool, n: u32) -> u32
    ensures { result ≡ middles t skew n }
{
    match t {
        Track::Inside | Track::Program | Track::Branch => less(n, 2),
        Track::ReadDirect | Track::StoreDirect => u32::from(skew),
        Track::ReadAbsolute | Track::StoreAbsolute => 1,
    }
}

// Where an instruction's data lies, by D and the bytes after its opcode.
pub fn place(t: Track, d: u16, b1: u8, b2: u8) -> u16
    ensures { result ≡ place_by t d b1 b2 }
{
    choose(is_direct(t), add(d, b1 as u16), join(b1, b2))
}
