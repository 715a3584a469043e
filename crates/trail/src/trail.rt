// A line for each cycle, as the run goes: whole instructions as far as they go, then a cycle.
ghost use Rattle.std.specs.Prelude.{◌≡◌, true, ◌+◌, ◌*◌, ◌≤◌, length};
ghost use Rattle.cpu.specs.Record.{well_formed};
ghost use Rattle.run.specs.Runs.{run_of, most};
ghost use Rattle.trail.specs.Trails.{told_as, Listed, trail_of};

use crate::types::Told;
use cpu::record::well_formed;
use cpu::types::{Record, Refusal};
use drive::{ahead, is_roomy};
use memory::turn::turn;
use run::types::Bank;
use step::well_micro;
use trace::put_line;
use words::both;

fn told(refusal: Option<Refusal>, cycles: u32, place: usize, after: Record) -> Told
    ensures { result ≡ told_as refusal cycles place after }
{
    Told {
        refusal,
        cycles,
        place,
        after,
    }
}

// The cycles of a run whose budget, room and record are found good, with their lines from `start` on.
// `run::run::cycles` is this loop without a text: one for both would need a trait for what a stretch and a cycle do, which is longer than either.
fn cycles(
    rec: Record,
    mem: &mut Bank,
    text: &mut [u8],
    start: usize,
    before: u32,
    budget: u32,
) -> Told
    requires well { well_formed rec ≡ true }
    requires budget_bound { (before + budget ≤ most) × (start + 22 * budget ≤ length text.old) }
    ensures { Listed (run_of budget rec mem.old) (before + 1) start text.old result mem.new text.new }
{
    let mut place = start;
    let mut at = rec;
    let mut done: u32 = 0;
    while done < budget {
        let far = ahead(at, mem, text, place, before + done, budget - done);
        at = far.after;
        place = far.place;
        done += far.cycles;
        let t = turn(well_micro(at), at, mem);
        let Ok((line, next)) = t else {
            return told(t.err(), done, place, at);
        };
        place = put_line(text, place, before + done + 1, line);
        at = next;
        done += 1;
    }
    told(None, done, place, at)
}

// At most `budget` cycles with their lines from `start` on, `before` cycles having been done. Nothing is done where the memory isn't 65,536 bytes, the
// cycles come to more than 1,000,000, a line may lack room, or the record isn't well formed: whoever calls tells which.
pub fn trail(
    rec: Record,
    mem: &mut [u8],
    text: &mut [u8],
    start: usize,
    before: u32,
    budget: u32,
) -> Told
    ensures { Listed (trail_of start before budget rec mem.old text.old) (before + 1) start text.old result mem.new text.new }
{
    let Some(whole) = mem.as_mut_array() else {
        return told(None, 0, start, rec);
    };
    let fit = both(
        is_roomy(before, budget, start, text.len()),
        well_formed(rec),
    );
    if fit {
        cycles(rec, whole, text, start, before, budget)
    } else {
        told(None, 0, start, rec)
    }
}
