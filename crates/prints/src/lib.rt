// The lines that a track leaves in a text: a line for each cycle of a whole instruction, or of a byte of a move.
#![tactic(auto)]

ghost use Rattle.std.specs.Prelude.{◌≡◌, false, ◌&&◌, [], ◌∷◌, ◌+◌, ◌%◌, ◌≤◌, eqb, leb, length, get_or};
ghost use Rattle.std.proofs.lemmas.List.Edits.{sets};
ghost use Rattle.words.specs.Words.{pick, inc};
ghost use Rattle.cpu.specs.declared.types.Kind.TheVariants.{Opcode, Data};
ghost use Rattle.cycles.specs.Cycles.{unaligned};
ghost use Rattle.tracks.specs.Tracks.{reads, datum, second, up_to, track_lines, place_by, haul_lines};
ghost use Rattle.trace.specs.Text.{Wrote};
ghost use Rattle.dial.specs.Dial.{bytes_of, row_text, marks_of};
ghost use Rattle.prints.specs.Prints.{Drawn, mark, ready};

use cpu::types::Kind;
use dial::{Dial, tail, turned};
use trace::has_room;
use tracks::types::Track;
use tracks::{between, is_direct, is_store, less, place, second_kind, third_kind};
use words::{choose, low, up};

// The next line's number, and its place in the text.
#[derive(Clone, Copy)]
pub struct Mark {
    pub dial: Dial,
    pub place: usize,
}

// What stood at the program counter before an instruction: its opcode and the two bytes after it.
#[derive(Clone, Copy)]
pub struct Fetched {
    pub pc: u16,
    pub op: u8,
    pub first: u8,
    pub second: u8,
}

// A line's kind and direction, in the bytes of a word with the tabs around them and the two digits of bank 0: \t O \t R \t 0 0, the first lowest.
#[tactic(auto, unfolding(dial::specs::Dial::marks_of))]
fn marks(kind: Kind) -> u64
    ensures { result ≡ marks_of kind false }
{
    match kind {
        Kind::Opcode => 0x3030_0952_094F_09,
        Kind::Program => 0x3030_0952_0950_09,
        Kind::Data => 0x3030_0952_0944_09,
        Kind::Invalid => 0x3030_0952_0949_09,
    }
}

#[tactic(auto, unfolding(dial::specs::Dial::marks_of))]
fn data_marks(store: bool) -> u64
    ensures { result ≡ marks_of Data store }
{
    if store {
        0x3030_0957_0944_09
    } else {
        0x3030_0952_0944_09
    }
}

// A dial at a place.
pub fn mark_of(dial: Dial, place: usize) -> Mark
    ensures { result ≡ mark dial place }
{
    Mark { dial, place }
}

// Eight bytes of a word, the lowest first; the compiler makes one store of them.
fn put_word(text: &mut [u8], at: usize, v: u64)
    requires { at + 8 ≤ length text.old }
    ensures { text.new ≡ sets text.old at (bytes_of 8 v) }
{
    text[at] = (v % 256) as u8;
    text[at + 1] = (v / 256 % 256) as u8;
    text[at + 2] = (v / 65536 % 256) as u8;
    text[at + 3] = (v / 16777216 % 256) as u8;
    text[at + 4] = (v / 4294967296 % 256) as u8;
    text[at + 5] = (v / 1099511627776 % 256) as u8;
    text[at + 6] = (v / 281474976710656 % 256) as u8;
    text[at + 7] = (v / 72057594037927936) as u8;
}

// A line by its dial, its marks and its end at a place of the text, and the place after it.
// Each word is wider than its part of the line: what follows lies over the rest of it.
fn put_near(
    text: &mut [u8],
    at: usize,
    front: u64,
    width: usize,
    last: u8,
    marks: u64,
    end: u64,
) -> usize
    requires { at + 23 ≤ length text.old }
    ensures { Wrote text.old text.new at result (row_text front (width % 8) last marks end) }
{
    let w = width % 8;
    put_word(text, at, front);
    text[at + w] = last;
    put_word(text, at + w + 1, marks);
    put_word(text, at + w + 8, end);
    at + w + 16
}

// The line of a byte that is read. `datum_line` is apart for speed, and so are `fetches` and `data_lines`: with one line over a request, tried, a
// traced run fell from 1.57 to 0.84 of the crate's cycles (docs/SPEED.md), since it is no longer inlined and its kind no longer a constant.
fn fetch(text: &mut [u8], m: Mark, kind: Kind, p: u16, byte: u8) -> Mark
    requires { m.place + 23 ≤ length text.old }
    ensures { Drawn text.old text.new m result (reads kind p byte ∷ []) }
{
    let d = m.dial;
    let q = put_near(
        text,
        m.place,
        d.front,
        d.width,
        d.last,
        marks(kind),
        tail(p, byte),
    );
    mark_of(turned(d), q)
}

// The line of a byte of data that was read or stored.
fn datum_line(text: &mut [u8], m: Mark, store: bool, p: u16, mem: &[u8; 65536]) -> Mark
    requires { m.place + 23 ≤ length text.old }
    ensures { Drawn text.old text.new m result (datum store p mem.now ∷ []) }
{
    let d = m.dial;
    let byte = mem[p as usize];
    let q = put_near(
        text,
        m.place,
        d.front,
        d.width,
        d.last,
        data_marks(store),
        tail(p, byte),
    );
    mark_of(turned(d), q)
}

// None, one or two lines of the same cycle.
fn fetches(text: &mut [u8], m: Mark, k: u32, kind: Kind, p: u16, byte: u8) -> Mark
    requires { m.place + 46 ≤ length text.old }
    ensures drawn { Drawn text.old text.new m result (up_to k (reads kind p byte) (reads kind p byte)) }
    ensures near { result.place ≤ m.place + 46 }
{
    if k == 0 {
        return m;
    }
    let a = fetch(text, m, kind, p, byte);
    if k == 1 {
        return a;
    }
    fetch(text, a, kind, p, byte)
}

// None, one or two lines of data.
fn data_lines(text: &mut [u8], m: Mark, k: u32, store: bool, p: u16, mem: &[u8; 65536]) -> Mark
    requires { m.place + 46 ≤ length text.old }
    ensures { Drawn text.old text.new m result (up_to k (datum store p mem.now) (datum store (inc p) mem.now)) }
{
    if k == 0 {
        return m;
    }
    let a = datum_line(text, m, store, p, mem);
    if k == 1 {
        return a;
    }
    datum_line(text, a, store, up(p), mem)
}

// The opcode's line, and the next one.
fn opening(text: &mut [u8], m: Mark, t: Track, op: u8, b1: u8, pc: u16) -> Mark
    requires { m.place + 46 ≤ length text.old }
    ensures { Drawn text.old text.new m result (reads Opcode pc op ∷ reads (second t) (inc pc) b1 ∷ []) }
{
    let a = fetch(text, m, Kind::Opcode, pc, op);
    fetch(text, a, second_kind(t), up(pc), b1)
}

// The lines of an instruction of n cycles, by its track.
fn track_lines(
    text: &mut [u8],
    m: Mark,
    t: Track,
    f: Fetched,
    d: u16,
    n: u32,
    mem: &[u8; 65536],
) -> Mark
    requires { m.place + 161 ≤ length text.old }
    ensures { Drawn text.old text.new m result (track_lines t (unaligned d) f.op f.first f.second f.pc (place_by t d f.first f.second) n mem.now) }
{
    let Fetched {
        pc,
        op,
        first,
        second,
    } = f;
    let a = opening(text, m, t, op, first, pc);
    let k = between(t, low(d) != 0, n);
    let direct = is_direct(t);
    let b = fetches(
        text,
        a,
        k,
        third_kind(t),
        choose(direct, up(pc), up(up(pc))),
        choose(direct, first, second),
    );
    data_lines(
        text,
        b,
        less(less(n, 2), k),
        is_store(t),
        place(t, d, first, second),
        mem,
    )
}

// The lines of a byte of a move: v as it was read; what stands there now is in the memory.
fn haul_lines(
    text: &mut [u8],
    m: Mark,
    f: Fetched,
    x: u16,
    y: u16,
    v: u8,
    mem: &[u8; 65536],
) -> Mark
    requires { m.place + 161 ≤ length text.old }
    ensures { Drawn text.old text.new m result (haul_lines f.op f.first f.second f.pc x y v (get_or mem.now y 0)) }
{
    let Fetched {
        pc,
        op,
        first,
        second,
    } = f;
    let now = mem[y as usize];
    let a = fetch(text, m, Kind::Opcode, pc, op);
    let b = fetch(text, a, Kind::Program, up(pc), first);
    let c = fetch(text, b, Kind::Program, up(up(pc)), second);
    let d = fetch(text, c, Kind::Data, x, v);
    let e = datum_line(text, d, true, y, mem);
    let f = fetch(text, e, Kind::Invalid, y, now);
    fetch(text, f, Kind::Invalid, y, now)
}

// The lines of an instruction of n cycles, by its track, its bytes, D, and the memory after it: all of them where 161 bytes have room at the mark and the
// memory has 65,536; otherwise none, and the mark stays.
pub fn put_track(text: &mut [u8], m: Mark, t: Track, f: Fetched, d: u16, n: u32, mem: &[u8]) -> Mark
    ensures { Drawn text.old text.new m result (pick (ready m.place text.old mem.now) (track_lines t (unaligned d) f.op f.first f.second f.pc (place_by t d f.first f.second) n mem.now) []) }
{
    if !has_room(text.len(), m.place, 161) {
        return m;
    }
    match mem.try_into() {
        Ok(whole) => track_lines(text, m, t, f, d, n, whole),
        Err(_) => m,
    }
}

// The lines of a byte of a move likewise: v as it was read; what stands there now is in the memory.
pub fn put_haul(text: &mut [u8], m: Mark, f: Fetched, x: u16, y: u16, v: u8, mem: &[u8]) -> Mark
    ensures { Drawn text.old text.new m result (pick (ready m.place text.old mem.now) (haul_lines f.op f.first f.second f.pc x y v (get_or mem.now y 0)) []) }
{
    if !has_room(text.len(), m.place, 161) {
        return m;
    }
    match mem.try_into() {
        Ok(whole) => haul_lines(text, m, f, x, y, v, whole),
        Err(_) => m,
    }
}
