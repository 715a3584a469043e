// A session's cycles over a lent memory: one, or as many as are asked for.
ghost use Rattle.std.specs.Prelude.{◌≡◌};
ghost use Rattle.session_port.specs.Port.{session_cycle, session_cycles};
ghost use Rattle.walk_port.specs.Walk.{cycles_number};

use cpu::record::number_in;
use numbers::numbers::ended_number;
use session_port::sessions::cycles_of;

// The session after a cycle over a lent memory.
pub fn glavorint_session_cycle(session: &mut [u8], mem: &mut [u8]) -> u8
    ensures { (result ≡ (session_cycle session.old mem.old).number)
        × (session.new ≡ (session_cycle session.old mem.old).bytes)
        × (mem.new ≡ (session_cycle session.old mem.old).mem) }
{
    let t = cycles_of(session, mem, 1);
    number_in(t.refusal)
}

// The session after at most `count` cycles, up to the first that is refused.
pub fn glavorint_session_cycles(session: &mut [u8], mem: &mut [u8], count: u32) -> u64
    ensures { (result ≡ cycles_number (session_cycles session.old mem.old count))
        × (session.new ≡ (session_cycles session.old mem.old count).bytes)
        × (mem.new ≡ (session_cycles session.old mem.old count).mem) }
{
    let t = cycles_of(session, mem, count);
    ended_number(t.refusal, t.cycles)
}
