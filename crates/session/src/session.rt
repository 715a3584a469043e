// The work is done by value. The two entries that change a lent session only take it apart and put it back.
ghost use Rattle.std.specs.Prelude.{◌≡◌};
ghost use Rattle.step.specs.Cycle.{request_of};
ghost use Rattle.session.specs.Sessions.{counted, counted_on, session_at, started, stepped, told_by, answered_to, cycled_by, memory_by, cycled_over, memory_over};

use crate::types::{Session, Stepped};
use cpu::types::{Record, Refusal, Request};
use cycles::types::Micro;
use memory::turn::turn;
use step::{answer, next_micro, request};

// A session at a record, with no cycle done.
pub fn start(at: Record) -> Session
    ensures { result ≡ started at }
{
    Session { at, cycles: 0 }
}

// What the session asks of the bus, or the refusal: 4, 5 or 6.
pub fn asking(s: Session) -> Result<Request, Refusal>
    ensures { result ≡ request_of s.at }
{
    let at = s.at;
    request(at)
}

// One more, but never back to 0: a count that wrapped would tell of fewer cycles than were done.
fn count(n: u64) -> u64
    ensures { result ≡ counted n }
{
    count_on(n, 1)
}

// So many more, likewise.
pub fn count_on(n: u64, more: u32) -> u64
    ensures { result ≡ counted_on more n }
{
    n.saturating_add(u64::from(more))
}

// The session one cycle on.
fn gone_on(s: Session, next: Record) -> Session
    ensures { result ≡ session_at next (counted s.cycles) }
{
    Session {
        at: next,
        cycles: count(s.cycles),
    }
}

// A session after a cycle, or as it was with the refusal.
fn stepped(session: Session, refusal: Option<Refusal>) -> Stepped
    ensures { result ≡ stepped session refusal }
{
    Stepped { session, refusal }
}

// The session after the answered byte.
pub fn answered(s: Session, b: u8) -> Stepped
    ensures { result ≡ answered_to s b }
{
    let at = s.at;
    let a = answer(at, b);
    let Ok(next) = a else {
        return stepped(s, a.err());
    };
    stepped(gone_on(s, next), None)
}

// The session after what `m` does over a lent memory that stands for bank 0.
fn cycled_by(m: Micro, s: Session, mem: &mut [u8]) -> Stepped
    ensures { (result ≡ cycled_by m s mem.old) × (mem.new ≡ memory_by m s mem.old) }
{
    if mem.len() != 65536 {
        return stepped(s, Some(Refusal::Memory));
    }
    let at = s.at;
    let t = turn(m, at, mem);
    let Ok((_, next)) = t else {
        return stepped(s, t.err());
    };
    stepped(gone_on(s, next), None)
}

// The session after a cycle over a lent memory that stands for bank 0.
pub fn cycled(s: Session, mem: &mut [u8]) -> Stepped
    ensures { (result ≡ cycled_over s mem.old) × (mem.new ≡ memory_over s mem.old) }
{
    let at = s.at;
    cycled_by(next_micro(at), s, mem)
}

// Whether a step was refused.
fn told(refusal: Option<Refusal>) -> Result<(), Refusal>
    ensures { result ≡ told_by refusal }
{
    match refusal {
        None => Ok(()),
        Some(n) => Err(n),
    }
}

// Changes the session by the answered byte; a refused session stays as it was.
pub fn answer_byte(s: &mut Session, b: u8) -> Result<(), Refusal>
    ensures { (result ≡ told_by (answered_to s.old b).refusal) × (s.new ≡ (answered_to s.old b).session) }
{
    let t = answered(*s, b);
    *s = t.session;
    told(t.refusal)
}

// The same by a cycle over a lent memory.
pub fn do_cycle(s: &mut Session, mem: &mut [u8]) -> Result<(), Refusal>
    ensures { (result ≡ told_by (cycled_over s.old mem.old).refusal)
        × (s.new ≡ (cycled_over s.old mem.old).session)
        × (mem.new ≡ memory_over s.old mem.old) }
{
    let t = cycled(*s, mem);
    *s = t.session;
    told(t.refusal)
}
