// Cycle after cycle of a session. The record goes through the loop alone: its form and the memory's size are tested before, and the cycles are counted after.
ghost use Rattle.std.specs.Prelude.{◌≡◌, true, eqb};
ghost use Rattle.words.specs.Words.{pick};
ghost use Rattle.cpu.specs.Record.{well_formed};
ghost use Rattle.cpu.specs.declared.types.Refusal.TheVariants.{Memory, Malformed};
ghost use Rattle.run.specs.Runs.{told, run_of, size};
ghost use Rattle.session.specs.Sessions.{session_at, counted_on};
ghost use Rattle.session_port.specs.Port.{went_to, course_over, told_of, unfit_of};

use crate::types::Went;
use cpu::record::well_formed;
use cpu::types::{Record, Refusal};
use memory::turn::turn;
use run::run::ended;
use run::types::Outcome;
use session::session::count_on;
use session::types::Session;
use step::well_micro;
use words::both;

fn went(session: Session, cycles: u32, refusal: Option<Refusal>) -> Went
    ensures { result ≡ went_to session cycles refusal }
{
    Went {
        session,
        cycles,
        refusal,
    }
}

// The cycles of a well-formed record: every cycle keeps it so.
// `run::run::cycles` is this loop with a stretch before each cycle: one for both would need a trait with a stretch of none, which is longer than either.
fn paces(rec: Record, mem: &mut [u8], count: u32) -> Outcome
    requires { well_formed rec ≡ true }
    ensures { (result ≡ told (run_of count rec mem.old)) × (mem.new ≡ (run_of count rec mem.old).mem) }
{
    let mut at = rec;
    let mut done: u32 = 0;
    while done < count {
        let t = turn(well_micro(at), at, mem);
        let Ok((_, next)) = t else {
            return ended(t.err(), done, at);
        };
        at = next;
        done += 1;
    }
    ended(None, done, at)
}

// A session of so many cycles that went on so far.
fn gone_on(before: u64, o: Outcome) -> Went
    ensures { result ≡ went_to (session_at o.after (counted_on o.cycles before)) o.cycles o.refusal }
{
    let cycles = count_on(before, o.cycles);
    let at = o.after;
    went(Session { at, cycles }, o.cycles, o.refusal)
}

// Why what is no session does no cycle: 4, but 1 comes before it.
pub fn unfit_by(len: usize) -> Refusal
    ensures { result ≡ pick (eqb len size) Malformed Memory }
{
    if len != 65536 {
        Refusal::Memory
    } else {
        Refusal::Malformed
    }
}

// Why a session does no cycle: 1 for a memory of another size; 4 for its record, if a cycle is asked for at all.
fn unfit(s: Session, len: usize, count: u32) -> Went
    ensures { result ≡ unfit_of count len s }
{
    if len != 65536 {
        return went(s, 0, Some(Refusal::Memory));
    }
    if count == 0 {
        went(s, 0, None)
    } else {
        went(s, 0, Some(Refusal::Malformed))
    }
}

// At most `count` cycles over a lent memory, up to the first that is refused.
pub fn repeated(s: Session, mem: &mut [u8], count: u32) -> Went
    ensures { (result ≡ told_of (course_over count s mem.old)) × (mem.new ≡ (course_over count s mem.old).mem) }
{
    let fit = both(mem.len() == 65536, well_formed(s.at));
    if fit {
        gone_on(s.cycles, paces(s.at, mem, count))
    } else {
        unfit(s, mem.len(), count)
    }
}
