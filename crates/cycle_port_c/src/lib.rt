// What a program in C or Rust links for single cycles, on numbers and lent bytes: each export is the function of its name in cycle_port, and states
// its clauses again. include/glavorint.h says what a caller has to know.
#![tactic(auto)]

ghost use Rattle.std.specs.Prelude.{◌≡◌};
ghost use Rattle.cycle_port.specs.Port.{request_number, answer_bytes};

use cycle_port::cycle;

// The edition of the bytes and bits that these functions take and answer.
#[unsafe(no_mangle)]
pub extern "C" fn glavorint_edition() -> u32
    ensures { result ≡ 1 }
{
    cycle::glavorint_edition()
}

// What a packed record asks of the bus.
#[unsafe(no_mangle)]
pub extern "C" fn glavorint_request(rec: &[u8]) -> u64
    ensures { result ≡ request_number rec.now }
{
    cycle::glavorint_request(rec)
}

// The record after the answered byte, in place of the one that was lent; a refused one stays.
#[unsafe(no_mangle)]
pub extern "C" fn glavorint_answer(rec: &mut [u8], byte: u8) -> u8
    ensures { (result ≡ (answer_bytes rec.old byte).number) × (rec.new ≡ (answer_bytes rec.old byte).bytes) }
{
    cycle::glavorint_answer(rec, byte)
}
