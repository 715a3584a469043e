// Where a cycle leads, and the record that this gives.
ghost use Rattle.std.specs.Prelude.{◌≡◌};
ghost use Rattle.act.specs.Act.{unless, moved_on, way_of, next_cycle, arrived, act_of};

use crate::regs::regs_after;
use crate::types::Way;
use cpu::record::{finished, regs, taken, under_way};
use cpu::types::{Mid, Record, Regs};
use cycles::types::{Change, Move, To};
use mid::{is_last, mid_after, target_of};
use opcodes::operation::cond_in;
use opcodes::types::Operation;
use words::same_page;

fn on_if(t: bool, pbr: u8) -> Way
    ensures { result ≡ unless t pbr }
{
    if t { Way::On(pbr) } else { Way::End(pbr) }
}

fn moved_on(last: bool, pbr: u8) -> Way
    ensures { result ≡ moved_on last pbr }
{
    if last { Way::End(pbr) } else { Way::Again(pbr) }
}

fn way(t: To, o: Operation, r: Record, b: u8) -> Way
    ensures { result ≡ way_of t o r b }
{
    match t {
        To::On => Way::On(r.pbr),
        To::End => Way::End(r.pbr),
        To::EndByte => Way::End(b),
        To::EndBank => Way::End(r.tempbank),
        To::Taken => on_if(taken(cond_in(o), r.flags), r.pbr),
        To::Crossed => on_if(!same_page(r.pc, target_of(r)), r.pbr),
        To::Moved => moved_on(is_last(r), r.pbr),
    }
}

// A cycle that exists is below 8, so the remainder changes nothing.
fn next_cycle(tcu: u8) -> u8
    ensures { result ≡ next_cycle tcu }
{
    tcu % 8 + 1
}

fn arrive(w: Way, ir: u8, tcu: u8, g: Regs, t: Mid) -> Record
    ensures { result ≡ arrived w ir tcu g t }
{
    match w {
        Way::On(pbr) => under_way(ir, next_cycle(tcu), pbr, g, t),
        Way::End(pbr) => finished(ir, false, pbr, t.pc, t.s, t.dbr, g),
        Way::Again(pbr) => finished(ir, true, pbr, t.pc, t.s, t.dbr, g),
    }
}

// The record after a held cycle.
pub fn act(m: Move, c: Change, t: To, o: Operation, r: Record, b: u8) -> Record
    ensures { result ≡ act_of m c t o r b }
{
    let n = mid_after(m, o, r, b);
    let w = way(t, o, r, b);
    // Most cycles leave the registers alone, and so needn't carry them through what might change them.
    let Change::Keep = c else {
        return arrive(w, r.ir, r.tcu, regs_after(c, o, r, b), n);
    };
    arrive(w, r.ir, r.tcu, regs(r), n)
}
