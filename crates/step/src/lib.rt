// The two entries of a cycle: the request of a record, and the record after the answered byte. They decode by the one match,
// and the table of shapes says which fetched bytes are listed.
// Whoever runs many cycles works out `well_micro` once a cycle; crates/memory takes it apart once, and does both halves by it.
#![tactic(auto)]

ghost use Rattle.std.specs.Prelude.{◌≡◌};
ghost use Rattle.opcodes.specs.Opcodes.{decode_of};
ghost use Rattle.step.specs.Cycle.{well_micro, micro_of, begun_if, begun, asked_by, answered_by, request_of, answer_of};

use act::arrive::act;
use bus::{ask, code, read};
use cpu::record::{mid, regs, under_way, well_formed};
use cpu::types::{Kind, Record, Refusal, Request};
use cycles::types::Micro;
use decode::decode;
use herdbook::entry;
use mid::step_pc;
use opcodes::opcode::listed;
use phase::held_micro;
use shapes::shape_of;

// What a well-formed record's next cycle does: refusals 5 and 6 of a held opcode.
pub fn well_micro(r: Record) -> Micro
    ensures { result ≡ well_micro r }
{
    if r.held {
        held_micro(entry(r.ir), r.flags, r.d, r.tcu)
    } else {
        Micro::Fetch
    }
}

// What any record's next cycle does: refusal 4 first.
#[tactic(auto, unfolding(crate::specs::Cycle::micro_of))]
pub fn next_micro(r: Record) -> Micro
    ensures { result ≡ micro_of r }
{
    if !well_formed(r) {
        return Micro::Refuse(Refusal::Malformed);
    }
    well_micro(r)
}

// The same by the plain decode, for the two entries. The decode as an `impl Fn` would be no plainer: two facts about it to require.
#[tactic(auto, unfolding(crate::specs::Cycle::micro_of))]
fn decoded_micro(r: Record) -> Micro
    ensures { result ≡ micro_of r }
{
    if !well_formed(r) {
        return Micro::Refuse(Refusal::Malformed);
    }
    if r.held {
        held_micro(decode(r.ir), r.flags, r.d, r.tcu)
    } else {
        Micro::Fetch
    }
}

// The opcode's byte, once it is known whether it is listed.
fn begin_if(known: bool, r: Record, b: u8) -> Result<Record, Refusal>
    ensures { result ≡ begun_if known r b }
{
    if known {
        Ok(under_way(b, 1, r.pbr, regs(r), step_pc(mid(r))))
    } else {
        Err(Refusal::Unlisted)
    }
}

// The opcode's byte: the first cycle of its instruction comes next, or refusal 5. The loops call it, so it looks at no table.
pub fn begin(r: Record, b: u8) -> Result<Record, Refusal>
    ensures { result ≡ begun (decode_of b) r b }
{
    begin_if(listed(b), r, b)
}

// What a cycle asks, once it is known what it does.
pub fn request_at(r: Record, m: Micro) -> Result<Request, Refusal>
    ensures { result ≡ asked_by m r }
{
    match m {
        Micro::Refuse(n) => Err(n),
        Micro::Fetch => Ok(read(Kind::Opcode, code(r))),
        Micro::Held(q, _, _, _, o) => Ok(ask(q, o, r)),
    }
}

// What the answered byte makes of the record, likewise.
pub fn answer_at(r: Record, m: Micro, b: u8) -> Result<Record, Refusal>
    ensures { result ≡ answered_by m r b }
{
    match m {
        Micro::Refuse(n) => Err(n),
        Micro::Fetch => begin(r, b),
        Micro::Held(_, k, c, t, o) => Ok(act(k, c, t, o, r, b)),
    }
}

// What a record asks of the bus, or the refusal: 4, 5 or 6.
#[tactic(auto, unfolding(crate::specs::Cycle::request_of))]
pub fn request(r: Record) -> Result<Request, Refusal>
    ensures { result ≡ request_of r }
{
    request_at(r, decoded_micro(r))
}

// The record after the answered byte, or the refusal: 4, 5 or 6. After a write the byte is ignored.
pub fn answer(r: Record, b: u8) -> Result<Record, Refusal>
    ensures { result ≡ answer_of r b }
{
    let m = decoded_micro(r);
    let Micro::Fetch = m else {
        return answer_at(r, m, b);
    };
    begin_if(shape_of(b) != 0, r, b)
}
