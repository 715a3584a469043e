// Single instructions, through `request` and `answer`.
use crate::say::{say_head, say_line, say_record, say_stop};
use cpu::types::{Record, Refusal, Request};

fn start(p: u8, emulation: bool) -> Record {
    packed::bytes::start(0, 0, 0, 0x01FF, 0, 0x8000, 0, 0, p, emulation)
}

// What a figure starts from in native mode, but for what it says itself; P gives M, X, D and C.
pub fn native(p: u8) -> Record {
    start(p, false)
}

// The same in emulation.
pub fn emulated(p: u8) -> Record {
    start(p, true)
}

// The byte that crossed the bus: a write's own, or the one that was answered.
fn crossed(q: Request, answered: u8) -> Request {
    Request {
        byte: if q.write { q.byte } else { answered },
        ..q
    }
}

// One cycle: what was asked is printed; the record after, or the refusal.
fn cycle(rt: &impl Print, n: u32, r: Record, byte: u8) -> Result<Record, Refusal> {
    let q = step::request(r)?;
    say_line(rt, n, crossed(q, byte));
    step::answer(r, byte)
}

// A figure: the bytes are answered one after the other, a byte a cycle. The record that this comes to.
pub fn figure(rt: &impl Print, name: &str, from: Record, bytes: &[u8]) -> Record {
    say_head(rt, name, from, bytes);
    let mut at = from;
    for (n, byte) in (1..).zip(bytes) {
        match cycle(rt, n, at, *byte) {
            Ok(next) => at = next,
            Err(why) => {
                say_stop(rt, why);
                return at;
            }
        }
    }
    say_record(rt, at, bytes.len());
    at
}
