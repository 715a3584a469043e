// A cycle of a list, and the two commonest.
ghost use Rattle.std.specs.Prelude.{◌≡◌};
ghost use Rattle.cycles.specs.Cycles as cycles;

use crate::types::{Ask, Change, Cycle, Move, To};

// A cycle that a list has.
pub fn cycle(ask: Ask, step: Move, change: Change, to: To) -> Option<Cycle>
    ensures { result ≡ cycles.present ask step change to }
{
    Some(Cycle {
        ask,
        step,
        change,
        to,
    })
}

// A cycle that keeps the registers and goes on.
pub fn on(q: Ask, m: Move) -> Option<Cycle>
    ensures { result ≡ cycles.on q m }
{
    cycle(q, m, Change::Keep, To::On)
}

// A cycle that keeps the registers and is the last one.
pub fn last(q: Ask, m: Move) -> Option<Cycle>
    ensures { result ≡ cycles.last q m }
{
    cycle(q, m, Change::Keep, To::End)
}
