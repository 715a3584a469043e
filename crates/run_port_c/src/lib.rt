// What a program in C or Rust links for runs, on numbers and lent bytes: each export is the function of its name in run_port, and states
// its clauses again. include/glavorint.h says what a caller has to know.
#![tactic(auto)]

ghost use Rattle.std.specs.Prelude.{◌≡◌};
ghost use Rattle.run_port.specs.Port.{run_bytes};

use run_port::runs;

// At most `budget` cycles; the record that they come to takes the place of the lent one.
#[unsafe(no_mangle)]
pub extern "C" fn glavorint_run(rec: &mut [u8], mem: &mut [u8], budget: u32) -> u64
    ensures { (result ≡ (run_bytes rec.old mem.old budget).answer)
        × (rec.new ≡ (run_bytes rec.old mem.old budget).bytes)
        × (mem.new ≡ (run_bytes rec.old mem.old budget).mem) }
{
    runs::glavorint_run(rec, mem, budget)
}
