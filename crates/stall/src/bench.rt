// What the bench is shown. Each function answers whether that could be written, or why not.
use crate::request::{Request, count};
use gate::say::{say_reason, say_record};
use pails::ran::Refusal;
use std::io;

// The record's line.
pub fn show_words(rt: &impl Print, session: &[u8; 40]) -> io::Result<()> {
    let mut rec = [0u8; 32];
    rec.copy_from_slice(&session[..32]);
    say_record(rt, &rec)
}

// A trace's line; the byte of a read is the bench's to give.
pub fn show(rt: &impl Print, session: &[u8; 40], asked: Request) -> io::Result<()> {
    print!(rt; "{}", count(session).wrapping_add(1))?;
    let fields = asked.text();
    if asked.writes() {
        return rt.write_all(&fields);
    }
    rt.write_all(&fields[..11])?;
    rt.write_all(b"\n")
}

// A fetched byte is refused.
pub fn unlisted(rt: &impl Print, refusal: Refusal) -> io::Result<()> {
    println!(rt; "refusal {}", refusal.0)
}

pub fn puzzled(rt: &impl Print) -> io::Result<()> {
    println!(rt; "? two hex digits, record or quit")
}

// The session is refused outright.
pub fn refused(
    rt: &impl Print,
    err: &impl Print,
    session: &[u8; 40],
    refusal: Refusal,
) -> io::Result<()> {
    unlisted(rt, refusal)?;
    show_words(rt, session)?;
    say_reason(err, refusal);
    Ok(())
}

// The bench has done.
pub fn finish(rt: &impl Print, session: &[u8; 40]) -> io::Result<()> {
    println!(rt; "cycles {}", count(session))?;
    show_words(rt, session)
}
