// Runs of a packed record that write a trace, whole or in pieces.
ghost use Rattle.std.specs.Prelude.{◌≡◌, ◌<◌};
ghost use Rattle.cpu.specs.Record.{number_in};
ghost use Rattle.trace_port.specs.Port.{trace_number, unfit_text, trace_bytes};

use cpu::record::number_in;
use cpu::types::Refusal;
use drive::in_budget;
use packed::bytes::{pack, put, unpack};
use traced::traced::{room, traced_piece};

fn trace_number(refusal: Option<Refusal>, cycles: u32, written: usize) -> u64
    requires { (cycles < 16777216) × (written < 4294967296) }
    ensures { result ≡ trace_number (number_in refusal) cycles written }
{
    let number = number_in(refusal);
    (cycles as u64) + (written as u64) * 16_777_216 + (number as u64) * 72_057_594_037_927_936
}

// Why a record that isn't a packed one isn't run: what comes before it in document 01's order, or 4.
fn unfit_by(len: usize, text: usize, before: u32, budget: u32) -> Refusal
    ensures { result ≡ unfit_text len text before budget }
{
    if len != 65536 {
        return Refusal::Memory;
    }
    if !in_budget(before, budget) {
        return Refusal::Budget;
    }
    if text < room(before, budget) {
        return Refusal::Room;
    }
    Refusal::Malformed
}

// At most `budget` cycles, `before` having been done, with a line for each in the lent text.
pub fn glavorint_trace(
    rec: &mut [u8],
    mem: &mut [u8],
    text: &mut [u8],
    before: u32,
    budget: u32,
) -> u64
    ensures { (result ≡ (trace_bytes rec.old mem.old text.old before budget).answer)
        × (rec.new ≡ (trace_bytes rec.old mem.old text.old before budget).bytes)
        × (mem.new ≡ (trace_bytes rec.old mem.old text.old before budget).mem)
        × (text.new ≡ (trace_bytes rec.old mem.old text.old before budget).text) }
{
    let u = unpack(rec);
    let Some(r) = u else {
        return trace_number(Some(unfit_by(mem.len(), text.len(), before, budget)), 0, 0);
    };
    let o = traced_piece(r, mem, text, before, budget);
    let after = o.after;
    let bytes = pack(after);
    put(rec, 0, &bytes);
    trace_number(o.refusal, o.cycles, o.written)
}
