// From a shape and a cycle's number to what the cycle asks and does.
#![tactic(auto)]

ghost use Rattle.std.specs.Prelude.{◌≡◌};
ghost use Rattle.cycles.specs.Cycles.{phase_of, carrying, held_micro};

use cpu::types::Refusal;
use cycles::operand::{
    absolute_at, direct_at, immediate_at, implied_at, mask_at, store_absolute_at, store_direct_at,
    wdm_at, xba_at,
};
use cycles::types::{Cycle, Micro};
use flags::Flags;
use flow::jumps::{
    branch_at, branch_long_at, call_at, call_indexed_at, call_long_at, jump_at, jump_indexed_at,
    jump_indirect_at, jump_indirect_long_at, jump_long_at, move_at, return_at, return_long_at,
};
use opcodes::operation::is_wide_operation;
use opcodes::types::{Operation, Shape};
use stack::{pea_at, pei_at, per_at, pull_at, pull_b_at, pull_d_at, pull_p_at, push_at};

// A shape's cycle, by its number.
pub fn phase(s: Shape, w: bool, d: bool, e: bool, tcu: u8) -> Option<Cycle>
    ensures { result ≡ phase_of s w d e tcu }
{
    match s {
        Shape::Immediate => immediate_at(w, tcu),
        Shape::Absolute => absolute_at(w, tcu),
        Shape::Direct => direct_at(w, d, tcu),
        Shape::StoreAbsolute => store_absolute_at(w, tcu),
        Shape::StoreDirect => store_direct_at(w, d, tcu),
        Shape::Implied => implied_at(tcu),
        Shape::Xba => xba_at(tcu),
        Shape::Mask => mask_at(tcu),
        Shape::Wdm => wdm_at(tcu),
        Shape::Push => push_at(w, tcu),
        Shape::Pull => pull_at(w, tcu),
        Shape::PullP => pull_p_at(tcu),
        Shape::PullB => pull_b_at(tcu),
        Shape::PullD => pull_d_at(tcu),
        Shape::Pea => pea_at(tcu),
        Shape::Pei => pei_at(d, tcu),
        Shape::Per => per_at(tcu),
        Shape::Jump => jump_at(tcu),
        Shape::JumpLong => jump_long_at(tcu),
        Shape::JumpIndirect => jump_indirect_at(tcu),
        Shape::JumpIndirectLong => jump_indirect_long_at(tcu),
        Shape::JumpIndexed => jump_indexed_at(tcu),
        Shape::Call => call_at(tcu),
        Shape::CallIndexed => call_indexed_at(tcu),
        Shape::CallLong => call_long_at(tcu),
        Shape::Return => return_at(tcu),
        Shape::ReturnLong => return_long_at(tcu),
        Shape::Branch => branch_at(e, tcu),
        Shape::BranchLong => branch_long_at(tcu),
        Shape::Move => move_at(tcu),
    }
}

fn carried(o: Operation, c: Option<Cycle>) -> Micro
    ensures { result ≡ carrying o c }
{
    match c {
        None => Micro::Refuse(Refusal::NoCycle),
        Some(k) => Micro::Held(k.ask, k.step, k.change, k.to, o),
    }
}

// What a held opcode's cycle does: refusal 5 for one that isn't listed, 6 for a cycle that it hasn't.
pub fn held_micro(op: Option<(Shape, Operation)>, f: Flags, d: u16, tcu: u8) -> Micro
    ensures { result ≡ held_micro op f d tcu }
{
    let Some((s, o)) = op else {
        return Micro::Refuse(Refusal::Unlisted);
    };
    let w = is_wide_operation(o, f.memsel, f.indexsel);
    carried(o, phase(s, w, d % 256 != 0, f.emulation, tcu))
}
