// Paces: what a run does at a call, and what is known of it.
ghost use Rattle.std.specs.Prelude.{◌≡◌, ℕ, Bool, true, List};
ghost use Rattle.cpu.specs.Record.{well_formed};
ghost use Rattle.cpu.specs.declared.types.Record.{Record};
ghost use Rattle.stride.specs.Strides.{fresh, stride_of, stride_mem};
ghost use Rattle.stride.specs.declared.types.Stretch.{Stretch};
ghost use Rattle.haul.specs.Hauls.{haul_of, haul_mem};
ghost use Rattle.run.specs.Passes.{Paced};

use crate::types::Bank;
use cpu::types::Record;
use haul::haul;
use stride::stride::stride;
use stride::types::Stretch;

// What is done at a call, one after the other while more than `FLOOR` cycles are left: more than any of them takes, so one at least is left.
pub trait Pace {
    ghost turn: { Record → List ℕ → Stretch };

    ghost memory: { Record → List ℕ → List ℕ };

    // Whether one can begin at a record.
    ghost start: { Record → Bool };

    ghost FLOOR: { ℕ };

    const FLOOR: u32;

    fn go(r: Record, mem: &mut Bank) -> Stretch
        ensures value { (result ≡ turn r mem.old) × (mem.new ≡ memory r mem.old) }
        ensures paced { well_formed r ≡ true → start r ≡ true → Paced start FLOOR r mem.old result mem.new };
}

// A whole instruction.
pub struct Striding;

impl Pace for Striding {
    ghost turn = { stride_of };

    ghost memory = { stride_mem };

    ghost start = { fresh };

    ghost FLOOR = { 7 };

    const FLOOR: u32 = 7;

    fn go(r: Record, mem: &mut Bank) -> Stretch {
        stride(r, mem)
    }
}

// A byte of a move.
pub struct Hauling;

impl Pace for Hauling {
    ghost turn = { haul_of };

    ghost memory = { haul_mem };

    ghost start = { λ r. true };

    ghost FLOOR = { 8 };

    const FLOOR: u32 = 8;

    fn go(r: Record, mem: &mut Bank) -> Stretch {
        haul(r, mem)
    }
}
