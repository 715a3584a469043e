// Refusals 1, 2 and 3 once, which change nothing; then the header, and a line for each cycle. A trace can be made in pieces: a piece is told
// how many cycles were done before it, numbers its lines on from there, and writes the header only where none were.
ghost use Rattle.std.specs.Prelude.{◌≡◌, ◌+◌, ◌≤◌, leb, length};
ghost use Rattle.trace.specs.Text.{Wrote};
ghost use Rattle.run.specs.Runs.{most};
ghost use Rattle.traced.specs.Traces.{head, room_of, traced_as, traced_from, malformed_at, piece_of, whole_piece, Tells};

use crate::types::Traced;
use cpu::record::well_formed;
use cpu::types::{Record, Refusal};
use drive::in_budget;
use run::types::Bank;
use trace::put_header;
use trail::trail::trail;
use trail::types::Told;

fn ended(refusal: Option<Refusal>, cycles: u32, written: usize, after: Record) -> Traced
    ensures { result ≡ traced_as refusal cycles written after }
{
    Traced {
        refusal,
        cycles,
        written,
        after,
    }
}

// The room that a piece must find: the header's, if it has one, and 22 bytes for each cycle.
#[tactic(auto, unfolding(crate::specs::Traces::head))]
pub fn room(before: u32, budget: u32) -> usize
    ensures { result ≡ room_of before budget }
{
    if before == 0 {
        return 6 + 22 * (budget as usize);
    }
    22 * (budget as usize)
}

// The header where no cycle was done before, and the place after it.
fn put_head(text: &mut [u8], before: u32) -> usize
    requires { length (head before) ≤ length text.old }
    ensures { Wrote text.old text.new 0 result (head before) }
{
    if before == 0 {
        return put_header(text, 0);
    }
    0
}

fn as_traced(t: Told) -> Traced
    ensures { result ≡ traced_from t }
{
    ended(t.refusal, t.cycles, t.place, t.after)
}

// A record that isn't well formed: 4, if a cycle is asked for at all.
fn unfit(rec: Record, place: usize, budget: u32) -> Traced
    ensures { result ≡ malformed_at place budget rec }
{
    if budget == 0 {
        ended(None, 0, place, rec)
    } else {
        ended(Some(Refusal::Malformed), 0, place, rec)
    }
}

// A piece whose memory, budget and room are found good: the header is written whatever comes.
fn piece(rec: Record, mem: &mut Bank, text: &mut [u8], before: u32, budget: u32) -> Traced
    requires { (before + budget ≤ most) × (room_of before budget ≤ length text.old) }
    ensures { Tells (piece_of before budget rec mem.old text.old) result mem.new text.new }
{
    let place = put_head(text, before);
    if well_formed(rec) {
        as_traced(trail(rec, mem, text, place, before, budget))
    } else {
        unfit(rec, place, budget)
    }
}

// At most `budget` cycles over a lent memory that stands for bank 0, with a line for each in a lent text, `before` cycles having been done. Refused at
// once by 1, by 2 where `before` and the budget come to more than 1,000,000, and by 3 where the text is too short; on the way by 4 to 7.
#[tactic(auto, unfolding(crate::specs::Traces::whole_piece))]
pub fn traced_piece(
    rec: Record,
    mem: &mut [u8],
    text: &mut [u8],
    before: u32,
    budget: u32,
) -> Traced
    ensures { Tells (whole_piece before budget rec mem.old text.old) result mem.new text.new }
{
    let Some(whole) = mem.as_mut_array() else {
        return ended(Some(Refusal::Memory), 0, 0, rec);
    };
    if !in_budget(before, budget) {
        return ended(Some(Refusal::Budget), 0, 0, rec);
    }
    if text.len() < room(before, budget) {
        return ended(Some(Refusal::Room), 0, 0, rec);
    }
    piece(rec, whole, text, before, budget)
}

// A whole traced run: a piece before which nothing was done.
pub fn traced_run(rec: Record, mem: &mut [u8], text: &mut [u8], budget: u32) -> Traced
    ensures { Tells (whole_piece 0 budget rec mem.old text.old) result mem.new text.new }
{
    traced_piece(rec, mem, text, 0, budget)
}
