// What a program in C or Rust links for a session's cycles over its own memory, on numbers and lent bytes: each export is the function of its name in walk_port, and states
// its clauses again. include/glavorint.h says what a caller has to know.
#![tactic(auto)]

ghost use Rattle.std.specs.Prelude.{◌≡◌};
ghost use Rattle.session_port.specs.Port.{session_cycle, session_cycles};
ghost use Rattle.walk_port.specs.Walk.{cycles_number};

use walk_port::walk;

// The session after a cycle over a lent memory.
#[unsafe(no_mangle)]
pub extern "C" fn glavorint_session_cycle(session: &mut [u8], mem: &mut [u8]) -> u8
    ensures { (result ≡ (session_cycle session.old mem.old).number)
        × (session.new ≡ (session_cycle session.old mem.old).bytes)
        × (mem.new ≡ (session_cycle session.old mem.old).mem) }
{
    walk::glavorint_session_cycle(session, mem)
}

// The session after at most `count` cycles, up to the first that is refused.
#[unsafe(no_mangle)]
pub extern "C" fn glavorint_session_cycles(session: &mut [u8], mem: &mut [u8], count: u32) -> u64
    ensures { (result ≡ cycles_number (session_cycles session.old mem.old count))
        × (session.new ≡ (session_cycles session.old mem.old count).bytes)
        × (mem.new ≡ (session_cycles session.old mem.old count).mem) }
{
    walk::glavorint_session_cycles(session, mem, count)
}
