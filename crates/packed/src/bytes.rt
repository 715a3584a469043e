// Words stand with their low byte first. Bytes that are no packed record are found so before any of them is looked at as a register.
ghost use Rattle.std.specs.Prelude.{◌≡◌, ◌<◌, ◌==◌};
ghost use Rattle.std.specs.List.{list_all};
ghost use Rattle.packed.specs.Packed.{status_of, flags_of, start_of, pack, unpack, word_at, reserved, regular, unpacked, placed};

use cpu::types::Record;
use flags::Flags;
use words::{high, join, low, one_if};

// P as the flags are. `as_byte` sets M and X in emulation, where a record that isn't well formed may have them clear; so it is asked as
// in native mode, and any record comes back.
#[tactic(auto, unfolding(crate::specs::Packed::status_of, flags::specs::Flags::byte_of))]
fn status(f: Flags) -> u8
    ensures { result ≡ status_of f }
{
    Flags {
        emulation: false,
        ..f
    }
    .as_byte()
}

#[tactic(auto, unfolding(crate::specs::Packed::flags_of, flags::specs::Flags::set_byte))]
fn flags_of(p: u8, e: bool) -> Flags
    ensures { result ≡ flags_of p e }
{
    let clear = Flags {
        carry: false,
        zero: false,
        interruptdisable: false,
        decimal: false,
        indexsel: false,
        memsel: false,
        overflow: false,
        negative: false,
        emulation: false,
    };
    Flags {
        emulation: e,
        ..clear.set(p)
    }
}

// The record of ten words, at an instruction's start: A X Y S D PC PBR DBR P E, as the paper writes a state. P is taken as it is, so that
// one that isn't well formed in emulation is the core's to refuse.
#[tactic(auto, unfolding(crate::specs::Packed::start_of))]
pub fn start(
    a: u16,
    x: u16,
    y: u16,
    s: u16,
    d: u16,
    pc: u16,
    pbr: u8,
    dbr: u8,
    p: u8,
    e: bool,
) -> Record
    ensures { result ≡ start_of a x y s d pc pbr dbr p e }
{
    let flags = flags_of(p, e);
    Record {
        a,
        x,
        y,
        s,
        d,
        pc,
        pbr,
        dbr,
        flags,
        held: false,
        ir: 0,
        tcu: 0,
        tempaddr: 0,
        tempdata: 0,
        tempbank: 0,
    }
}

// The bytes of a record.
pub fn pack(r: Record) -> [u8; 32]
    ensures { result ≡ pack r }
{
    let f = r.flags;
    [
        1,
        one_if(r.held),
        r.ir,
        r.tcu,
        low(r.a),
        high(r.a),
        low(r.x),
        high(r.x),
        low(r.y),
        high(r.y),
        low(r.s),
        high(r.s),
        low(r.d),
        high(r.d),
        low(r.pc),
        high(r.pc),
        r.pbr,
        r.dbr,
        status(f),
        one_if(f.emulation),
        low(r.tempaddr),
        high(r.tempaddr),
        low(r.tempdata),
        high(r.tempdata),
        r.tempbank,
        0,
        0,
        0,
        0,
        0,
        0,
        0,
    ]
}

fn word_at(bytes: &[u8; 32], at: usize) -> u16
    requires { at < 31 }
    ensures { result ≡ word_at bytes.now at }
{
    join(bytes[at], bytes[at + 1])
}

#[tactic(auto, unfolding(crate::specs::Packed::unpack))]
fn record_of(bytes: &[u8; 32]) -> Record
    ensures { result ≡ unpack bytes.now }
{
    Record {
        a: word_at(bytes, 4),
        x: word_at(bytes, 6),
        y: word_at(bytes, 8),
        s: word_at(bytes, 10),
        d: word_at(bytes, 12),
        pc: word_at(bytes, 14),
        pbr: bytes[16],
        dbr: bytes[17],
        flags: flags_of(bytes[18], bytes[19] == 1),
        held: bytes[1] == 1,
        ir: bytes[2],
        tcu: bytes[3],
        tempaddr: word_at(bytes, 20),
        tempdata: word_at(bytes, 22),
        tempbank: bytes[24],
    }
}

fn are_zeros(bytes: &[u8]) -> bool
    ensures { result ≡ list_all (λ b. b == 0) bytes.now }
{
    bytes.iter().all(|b| *b == 0)
}

fn is_reserved(bytes: &[u8; 32]) -> bool
    ensures { result ≡ reserved bytes.now }
{
    are_zeros(&bytes[25..])
}

fn is_regular(bytes: &[u8; 32]) -> bool
    ensures { result ≡ regular bytes.now }
{
    bytes[0] == 1 && bytes[1] < 2 && bytes[19] < 2 && is_reserved(bytes)
}

// The record of some bytes, if they are a packed record.
#[tactic(auto, unfolding(crate::specs::Packed::is_packed))]
pub fn unpack(bytes: &[u8]) -> Option<Record>
    ensures { result ≡ unpacked bytes.now }
{
    let whole: &[u8; 32] = bytes.try_into().ok()?;
    if is_regular(whole) {
        Some(record_of(whole))
    } else {
        None
    }
}

// Bytes at a place of others; where they have no room nothing happens.
pub fn put(bytes: &mut [u8], at: usize, src: &[u8])
    ensures { bytes.new ≡ placed bytes.old at src.now }
{
    let size = src.len();
    if bytes.len() < size {
        return;
    }
    if bytes.len() - size < at {
        return;
    }
    for i in 0..size {
        bytes[at + i] = src[i];
    }
}
