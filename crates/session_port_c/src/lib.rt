// What a program in C or Rust links for a session's single steps, on numbers and lent bytes: each export is the function of its name in session_port, and states
// its clauses again. include/glavorint.h says what a caller has to know.
#![tactic(auto)]

ghost use Rattle.std.specs.Prelude.{◌≡◌};
ghost use Rattle.session_port.specs.Port.{session_request, session_answer};

use session_port::sessions;

// What a session asks of the bus.
#[unsafe(no_mangle)]
pub extern "C" fn glavorint_session_request(session: &[u8]) -> u64
    ensures { result ≡ session_request session.now }
{
    sessions::glavorint_session_request(session)
}

// The session after the answered byte, in place of the one that was lent; a refused one stays.
#[unsafe(no_mangle)]
pub extern "C" fn glavorint_session_answer(session: &mut [u8], byte: u8) -> u8
    ensures { (result ≡ (session_answer session.old byte).number) × (session.new ≡ (session_answer session.old byte).bytes) }
{
    sessions::glavorint_session_answer(session, byte)
}
