// Whole instructions, and bytes of a move, at a stretch over a memory: all their lines at once, by their track.
#![tactic(auto)]

ghost use Rattle.std.specs.Prelude.{◌≡◌, true, ◌&&◌, ◌+◌, ◌*◌, ◌-◌, ◌≤◌, ◌<◌, leb, length, get_or};
ghost use Rattle.std.proofs.Common.{rules};
ghost use Rattle.cpu.specs.Record.{well_formed};
ghost use Rattle.prints.specs.Prints.{Drawn};
ghost use Rattle.prints.proofs.Laws.{Small};
ghost use Rattle.run.specs.Runs.{run_of, most};
ghost use Rattle.run.specs.Passes.{Passes, Paced};
ghost use Rattle.run.specs.Far.{far, ahead_far};
ghost use Rattle.drive.specs.Drives.{walk, fetched, Walked, Driven, gone_by};

use crate::types::Walk;
use cpu::record::well_formed;
use cpu::types::Record;
use dial::dial_of;
use haul::haul;
use prints::{Fetched, Mark, mark_of, put_haul, put_track};
use run::pace::{Hauling, Pace, Striding};
use run::types::Bank;
use stride::stride::{cleared, is_fresh, stride};
use stride::types::Stretch;
use trace::has_room;
use tracks::track;
use words::{both, up};

pub mod types;

fn walk_of(cycles: u32, place: usize, after: Record) -> Walk
    ensures { result ≡ walk cycles place after }
{
    Walk {
        cycles,
        place,
        after,
    }
}

fn peek(mem: &Bank, p: u16) -> u8
    ensures { result ≡ get_or mem.now p 0 }
{
    mem[p as usize]
}

// What stands at the program counter, before an instruction may change it.
fn fetched(mem: &Bank, pc: u16) -> Fetched
    ensures { result ≡ fetched mem.now pc }
{
    Fetched {
        pc,
        op: peek(mem, pc),
        first: peek(mem, up(pc)),
        second: peek(mem, up(up(pc))),
    }
}

// A pace with its lines, which are drawn from what the memory held before it and holds after it.
trait Lined: Pace {
    fn lined(r: Record, mem: &mut Bank, text: &mut [u8], m: Mark) -> (Stretch, Mark)
        requires { (well_formed r ≡ true) × (Self.start r ≡ true) × (m.place + 161 ≤ length text.old) }
        ensures value { (result.0 ≡ Self.turn r mem.old) × (mem.new ≡ Self.memory r mem.old) }
        ensures paced { Paced Self.start Self.FLOOR r mem.old result.0 mem.new }
        ensures drawn { Drawn text.old text.new m result.1 (run_of result.0.cycles r mem.old).lines }
        ensures small { Small (run_of result.0.cycles r mem.old).lines };

    // With more than so many cycles left there is room for eight lines of 22 bytes, and that is room for seven of 23.
    ghost wide: { 7 ≤ Self.FLOOR };
}

impl Lined for Striding {
    ghost wide = { Prim.search rules };

    fn lined(r: Record, mem: &mut Bank, text: &mut [u8], m: Mark) -> (Stretch, Mark) {
        let f = fetched(mem, r.pc);
        let t = stride(r, mem);
        if t.cycles == 0 {
            return (t, m);
        }
        (t, put_track(text, m, track(f.op), f, r.d, t.cycles, mem))
    }
}

impl Lined for Hauling {
    ghost wide = { Prim.search rules };

    fn lined(r: Record, mem: &mut Bank, text: &mut [u8], m: Mark) -> (Stretch, Mark) {
        let f = fetched(mem, r.pc);
        let v = peek(mem, r.x);
        let t = haul(r, mem);
        if t.cycles == 0 {
            return (t, m);
        }
        (t, put_haul(text, m, f, r.x, r.y, v, mem))
    }
}

// As many as there is room for, with their lines; a cycle at least is left. `start` and `number` come one by one, since the loop's mark is made of
// them here: handed over in a struct by reference it was slow (docs/SPEED.md).
fn paces<P: Lined>(
    r: Record,
    mem: &mut Bank,
    text: &mut [u8],
    start: usize,
    number: u32,
    budget: u32,
) -> Walk
    requires begins { (well_formed r ≡ true) × (P.start r ≡ true) × (0 < budget) }
    requires budget_bound { (number + budget ≤ most + 1) × (start + 22 * budget ≤ length text.old) }
    ensures walked { Walked r mem.old text.old number start result mem.new text.new }
    ensures less { result.cycles < budget }
    ensures far { result.cycles ≡ far P.turn P.memory P.FLOOR budget budget r mem.old }
{
    let mut at = r;
    let mut m = mark_of(dial_of(number), start);
    let mut left = budget;
    while left > P::FLOOR {
        let (t, next) = P::lined(at, mem, text, m);
        at = t.after;
        m = next;
        if t.cycles == 0 {
            return walk_of(budget - left, m.place, at);
        }
        left -= t.cycles;
    }
    walk_of(budget - left, m.place, at)
}

// Either, by where the record stands.
fn forth(r: Record, mem: &mut Bank, text: &mut [u8], start: usize, number: u32, budget: u32) -> Walk
    requires begins { (well_formed r ≡ true) × (0 < budget) }
    requires budget_bound { (number + budget ≤ most + 1) × (start + 22 * budget ≤ length text.old) }
    ensures walked { Walked r mem.old text.old number start result mem.new text.new }
    ensures less { result.cycles < budget }
    ensures far { result.cycles ≡ ahead_far budget r mem.old }
{
    if is_fresh(r) {
        paces::<Striding>(cleared(r), mem, text, start, number, budget)
    } else {
        paces::<Hauling>(r, mem, text, start, number, budget)
    }
}

// Whether the cycles done before and the budget come to a million at most. Their sum may not fit 32 bits, so it is made of 64.
pub fn in_budget(before: u32, budget: u32) -> bool
    ensures { result ≡ leb (before + budget) most }
{
    before as u64 + budget as u64 <= 1_000_000
}

// The same, and so many lines have room: 22 bytes for one.
pub fn is_roomy(before: u32, budget: u32, start: usize, len: usize) -> bool
    ensures { result ≡ (leb (before + budget) most && leb (start + 22 * budget) len) }
{
    both(
        in_budget(before, budget),
        has_room(len, start, 22 * (budget as usize)),
    )
}

// Whole instructions, or bytes of a move, as far as they go, with their lines from `start` on, `before` cycles having been done. Nothing is done where the memory
// isn't 65,536 bytes, the cycles come to more than 1,000,000, a line may lack room, the record isn't well formed, or no cycle is asked for; nor inside an instruction.
pub fn ahead(
    r: Record,
    mem: &mut [u8],
    text: &mut [u8],
    start: usize,
    before: u32,
    budget: u32,
) -> Walk
    ensures driven { Driven (gone_by start before budget r mem.old text.old) r mem.old text.old (before + 1) start result mem.new text.new }
    ensures passes { Passes result.cycles r mem.old result.after mem.new × (well_formed result.after ≡ well_formed r) × (result.cycles ≤ budget - 1) }
{
    if r.tcu != 0 {
        return walk_of(0, start, r);
    }
    let Some(whole) = mem.as_mut_array() else {
        return walk_of(0, start, r);
    };
    let fit = both(is_roomy(before, budget, start, text.len()), well_formed(r));
    let go = both(fit, 0 < budget);
    if go {
        forth(r, whole, text, start, before + 1, budget)
    } else {
        walk_of(0, start, r)
    }
}
