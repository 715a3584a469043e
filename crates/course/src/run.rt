// A case's cycles one after the other.
ghost use Rattle.std.specs.Prelude.{◌≡◌};
ghost use Rattle.lines.specs.State.{record_of};
ghost use Rattle.course.specs.Course.{home_of, cycle_of, turn_of, next_of, course_of, ends_alike, is_same};

use crate::asked::agrees;
use crate::types::{Course, Difference};
use cpu::record::at_boundary;
use cpu::types::Record;
use lines::form::cycle_end;
use lines::state::{record_of, words_of};
use lines::text::{byte_of, past, same};
use lines::types::Places;
use words::both;

// An instruction's end, or a place between a move's bytes.
pub fn is_home(r: Record) -> bool
    ensures { result ≡ home_of r }
{
    at_boundary(r.held, r.ir, r.tcu)
}

// One cycle. `byte_of` makes 00 of what a cycle that is left open has for a byte.
fn cycle(text: &[u8], at: usize, r: Record) -> Result<Record, Difference>
    ensures { result ≡ cycle_of text.now at r }
{
    let asked = step::request(r)?;
    if !agrees(text, at, asked) {
        return Err(Difference::Asked(asked));
    }
    Ok(step::answer(r, byte_of(text, past(at, 8)))?)
}

// After the first cycle a core that is home has no cycle left.
fn turn(text: &[u8], at: usize, done: usize, r: Record) -> Result<Record, Difference>
    ensures { result ≡ turn_of text.now at done r }
{
    if both(0 < done, is_home(r)) {
        Err(Difference::Ended)
    } else {
        cycle(text, at, r)
    }
}

// Where the cycle after the one at a place begins. In a line that `read` takes one stands there; in others it is looked for from 1 on, as `next_of` has it.
fn next_place(text: &[u8], at: usize) -> usize
    ensures { result ≡ next_of text.now at }
{
    past(cycle_end(text, at).unwrap_or(0), 1)
}

// The cycles of a case, from the record of its start on.
pub fn run(text: &[u8], p: Places) -> Course
    ensures { result ≡ course_of p.count text.now p.cycles 0 (record_of text.now p.start) }
{
    let mut at = p.cycles;
    let mut r = record_of(text, p.start);
    for done in 0..p.count {
        let met = turn(text, at, done, r);
        let Ok(next) = met else {
            return Course {
                met,
                cycle: done + 1,
                at,
            };
        };
        r = next;
        at = next_place(text, at);
    }
    Course {
        met: Ok(r),
        cycle: p.count,
        at,
    }
}

// Whether the record after the last cycle has the line's ten words.
pub fn ends_alike(text: &[u8], p: Places, r: Record) -> bool
    ensures { result ≡ ends_alike text.now p r }
{
    let words = words_of(r);
    same(text, p.after, &words)
}

// Whether a whole line agrees: every cycle did, the instruction has ended, and its words are the line's.
pub fn is_same(text: &[u8], p: Places, c: Course) -> bool
    ensures { result ≡ is_same text.now p c.met }
{
    match c.met {
        Ok(r) => both(is_home(r), ends_alike(text, p, r)),
        Err(_) => false,
    }
}
