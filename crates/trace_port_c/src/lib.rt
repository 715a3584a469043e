// What a program in C or Rust links for traced runs, on numbers and lent bytes: each export is the function of its name in trace_port, and states
// its clauses again. include/glavorint.h says what a caller has to know.
#![tactic(auto)]

ghost use Rattle.std.specs.Prelude.{◌≡◌};
ghost use Rattle.trace_port.specs.Port.{trace_bytes};

use trace_port::traces;

// At most `budget` cycles, `before` having been done, with a line for each in the lent text.
#[unsafe(no_mangle)]
pub extern "C" fn glavorint_trace(
    rec: &mut [u8],
    mem: &mut [u8],
    text: &mut [u8],
    before: u32,
    budget: u32,
) -> u64
    ensures { (result ≡ (trace_bytes rec.old mem.old text.old before budget).answer)
        × (rec.new ≡ (trace_bytes rec.old mem.old text.old before budget).bytes)
        × (mem.new ≡ (trace_bytes rec.old mem.old text.old before budget).mem)
        × (text.new ≡ (trace_bytes rec.old mem.old text.old before budget).text) }
{
    traces::glavorint_trace(rec, mem, text, before, budget)
}
