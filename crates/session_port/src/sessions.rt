// Bench sessions as 40 bytes: the work is done by value, and the bytes are taken apart before and put together after it.
ghost use Rattle.std.specs.Prelude.{◌≡◌, ◌+◌, ◌*◌, ◌≤◌, ◌<◌, length};
ghost use Rattle.session.specs.Sessions.{session_at};
ghost use Rattle.session_port.specs.Port.{count_at, count_bytes, pack_session, opened, session_request, session_answer, session_cycles, tallied, tally_of};

use crate::repeated::{repeated, unfit_by};
use crate::types::Tally;
use cpu::record::number_in;
use cpu::types::{Record, Refusal};
use numbers::numbers::asked_number;
use packed::bytes::{pack, put, unpack};
use session::session::{answered, asking};
use session::types::Session;

#[tactic(auto, unfolding(crate::specs::Port::count_at))]
fn count_at(bytes: &[u8]) -> u64
    requires { length bytes.now ≡ 40 }
    ensures { result ≡ count_at bytes.now }
{
    u64::from_le_bytes([
        bytes[32], bytes[33], bytes[34], bytes[35], bytes[36], bytes[37], bytes[38], bytes[39],
    ])
}

fn count_bytes(n: u64) -> [u8; 8]
    ensures { result ≡ count_bytes n }
{
    [
        (n % 256) as u8,
        (n / 256 % 256) as u8,
        (n / 65_536 % 256) as u8,
        (n / 16_777_216 % 256) as u8,
        (n / 4_294_967_296 % 256) as u8,
        (n / 1_099_511_627_776 % 256) as u8,
        (n / 281_474_976_710_656 % 256) as u8,
        (n / 72_057_594_037_927_936 % 256) as u8,
    ]
}

fn session_at(at: Record, cycles: u64) -> Session
    ensures { result ≡ session_at at cycles }
{
    Session { at, cycles }
}

// The session of some bytes, if they are one.
fn session_of(bytes: &[u8]) -> Option<Session>
    ensures { result ≡ opened bytes.now }
{
    if bytes.len() != 40 {
        return None;
    }
    let at = unpack(&bytes[..32])?;
    Some(session_at(at, count_at(bytes)))
}

// A session's bytes in the place of another's.
fn put_session(bytes: &mut [u8], s: Session)
    requires { length bytes.old ≡ 40 }
    ensures { bytes.new ≡ pack_session s }
{
    let at = s.at;
    let front = pack(at);
    let back = count_bytes(s.cycles);
    put(bytes, 0, &front);
    put(bytes, 32, &back);
}

// What a session asks of the bus.
pub fn glavorint_session_request(session: &[u8]) -> u64
    ensures { result ≡ session_request session.now }
{
    let o = session_of(session);
    match o {
        Some(s) => asked_number(asking(s)),
        None => 4 * 281_474_976_710_656,
    }
}

// The session after the answered byte, in place of the one that was lent; a refused one stays.
pub fn glavorint_session_answer(session: &mut [u8], byte: u8) -> u8
    ensures { (result ≡ (session_answer session.old byte).number) × (session.new ≡ (session_answer session.old byte).bytes) }
{
    let o = session_of(session);
    let Some(s) = o else {
        return u8::from(Refusal::Malformed);
    };
    let t = answered(s, byte);
    let after = t.session;
    put_session(session, after);
    number_in(t.refusal)
}

fn tally(cycles: u32, refusal: Option<Refusal>) -> Tally
    ensures { result ≡ tallied cycles refusal }
{
    Tally { cycles, refusal }
}

// So many cycles of the session that some bytes are, up to the first that is refused. The exports of them are walk_port's: in a library of their own
// the core's cycle has one caller, and is inlined.
pub fn cycles_of(session: &mut [u8], mem: &mut [u8], count: u32) -> Tally
    ensures { (result ≡ tally_of (session_cycles session.old mem.old count))
        × (session.new ≡ (session_cycles session.old mem.old count).bytes)
        × (mem.new ≡ (session_cycles session.old mem.old count).mem) }
{
    let o = session_of(session);
    let Some(s) = o else {
        return tally(0, Some(unfit_by(mem.len())));
    };
    let w = repeated(s, mem, count);
    let after = w.session;
    put_session(session, after);
    tally(w.cycles, w.refusal)
}
