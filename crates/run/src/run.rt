// Refusals 1 and 2 once, then whole instructions as far as they go, and cycles. Well-formedness is tested once: every cycle keeps it.
ghost use Rattle.std.specs.Prelude.{◌≡◌, true, ◌<◌};
ghost use Rattle.cpu.specs.Record.{well_formed};
ghost use Rattle.run.specs.Runs.{told, outcome, malformed, run_of, whole_run};
ghost use Rattle.run.specs.Passes.{Goes};
ghost use Rattle.run.specs.Far.{far, ahead_far};

use crate::pace::{Hauling, Pace, Striding};
use crate::types::{Bank, Outcome};
use cpu::record::well_formed;
use cpu::types::{Record, Refusal};
use memory::turn::turn;
use step::well_micro;
use stride::stride::{cleared, is_fresh, stretch_of};
use stride::types::Stretch;

// How a run ended: its refusal if it was refused, as the caller tells of it, the cycles that were completed, and the record after them.
pub fn ended<R>(refusal: R, cycles: u32, after: Record) -> Outcome<R>
    ensures { result ≡ outcome refusal cycles after }
{
    Outcome {
        refusal,
        cycles,
        after,
    }
}

// As many as there is room for; a cycle at least is left.
fn paces<P: Pace>(r: Record, mem: &mut Bank, budget: u32) -> Stretch
    requires { (well_formed r ≡ true) × (P.start r ≡ true) × (0 < budget) }
    ensures goes { Goes r mem.old result mem.new }
    ensures less { result.cycles < budget }
    ensures far { result.cycles ≡ far P.turn P.memory P.FLOOR budget budget r mem.old }
{
    let mut at = r;
    let mut left = budget;
    while left > P::FLOOR {
        let t = P::go(at, mem);
        at = t.after;
        if t.cycles == 0 {
            return stretch_of(budget - left, at);
        }
        left -= t.cycles;
    }
    stretch_of(budget - left, at)
}

// Whole instructions, or bytes of a move, as far as they go: nowhere inside an instruction, nor with seven cycles left or fewer, where neither begins
// and a record that went through their loop for nothing would make a short run a tenth slower (docs/SPEED.md).
fn ahead(r: Record, mem: &mut Bank, budget: u32) -> Stretch
    requires { (well_formed r ≡ true) × (0 < budget) }
    ensures goes { Goes r mem.old result mem.new }
    ensures less { result.cycles < budget }
    ensures far { result.cycles ≡ ahead_far budget r mem.old }
{
    if r.tcu != 0 {
        return stretch_of(0, r);
    }
    if budget <= 7 {
        return stretch_of(0, r);
    }
    if is_fresh(r) {
        paces::<Striding>(cleared(r), mem, budget)
    } else {
        paces::<Hauling>(r, mem, budget)
    }
}

// The cycles of a run whose memory, budget and record are found good: whole instructions as far as they go, then a cycle.
fn cycles(rec: Record, mem: &mut Bank, budget: u32) -> Outcome
    requires { (well_formed rec ≡ true) }
    ensures { (result ≡ told (run_of budget rec mem.old)) × (mem.new ≡ (run_of budget rec mem.old).mem) }
{
    let mut at = rec;
    let mut done: u32 = 0;
    while done < budget {
        let far = ahead(at, mem, budget - done);
        at = far.after;
        done += far.cycles;
        let t = turn(well_micro(at), at, mem);
        let Ok((_, next)) = t else {
            return ended(t.err(), done, at);
        };
        at = next;
        done += 1;
    }
    ended(None, done, at)
}

// A record that isn't well formed: 4, if a cycle is asked for at all.
fn unfit(rec: Record, budget: u32) -> Outcome
    ensures { result ≡ malformed budget rec }
{
    if budget == 0 {
        ended(None, 0, rec)
    } else {
        ended(Some(Refusal::Malformed), 0, rec)
    }
}

// At most `budget` cycles over a lent memory that stands for bank 0. Refused at once by 1 for a memory that isn't 65,536 bytes and by 2 for a budget
// above 1,000,000; on the way by 4 to 7, with the cycles that were completed and what they wrote.
pub fn run(rec: Record, mem: &mut [u8], budget: u32) -> Outcome
    ensures { (result ≡ told (whole_run budget rec mem.old)) × (mem.new ≡ (whole_run budget rec mem.old).mem) }
{
    let Some(whole) = mem.as_mut_array() else {
        return ended(Some(Refusal::Memory), 0, rec);
    };
    if 1_000_000 < budget {
        return ended(Some(Refusal::Budget), 0, rec);
    }
    if well_formed(rec) {
        cycles(rec, whole, budget)
    } else {
        unfit(rec, budget)
    }
}
