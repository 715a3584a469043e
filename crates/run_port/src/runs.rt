// Runs of a packed record over a lent memory.
ghost use Rattle.std.specs.Prelude.{◌≡◌};
ghost use Rattle.run_port.specs.Port.{unfit, run_bytes};

use cpu::types::Refusal;
use numbers::numbers::ended_number;
use packed::bytes::{pack, put, unpack};
use run::run::run;

// Why a record that isn't a packed one isn't run: what comes before it in document 01's order, or 4.
fn unfit_by(len: usize, budget: u32) -> Refusal
    ensures { result ≡ unfit len budget }
{
    if len != 65536 {
        return Refusal::Memory;
    }
    if 1_000_000 < budget {
        return Refusal::Budget;
    }
    Refusal::Malformed
}

// At most `budget` cycles; the record that they come to takes the place of the lent one.
pub fn glavorint_run(rec: &mut [u8], mem: &mut [u8], budget: u32) -> u64
    ensures { (result ≡ (run_bytes rec.old mem.old budget).answer)
        × (rec.new ≡ (run_bytes rec.old mem.old budget).bytes)
        × (mem.new ≡ (run_bytes rec.old mem.old budget).mem) }
{
    let u = unpack(rec);
    let Some(r) = u else {
        return ended_number(Some(unfit_by(mem.len(), budget)), 0);
    };
    let o = run(r, mem, budget);
    let after = o.after;
    let bytes = pack(after);
    put(rec, 0, &bytes);
    ended_number(o.refusal, o.cycles)
}
