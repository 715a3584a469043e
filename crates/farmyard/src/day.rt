// The day's run: to the first move, that move's first byte with a trace, then to the end.
use audit::rom::{MOVE, START, STOP};
use cpu::types::{Record, Refusal};
use dairy::yard::Memory;
use run::run::run;
use run::types::Outcome;
use traced::traced::traced_run;

// How the day went: whether the first move was come to, the trace of its first byte, the cycles of it all, and how the rest ended.
#[derive(Clone, Copy)]
pub struct Day<'a> {
    pub moved: bool,
    pub trace: &'a [u8],
    pub cycles: u32,
    pub end: Outcome,
}

// As a reset leaves the chip: emulation, 8 bits, no interrupts, S in page 1.
fn awake() -> Record {
    packed::bytes::start(0, 0, 0, 0x01FF, 0, START, 0, 0, 0x34, true)
}

// Whether an instruction's start there was come to.
fn is_at(r: Record, pc: u16) -> bool {
    !r.held && r.pc == pc
}

// The first move is looked for after `before` cycles. A moved byte takes seven.
pub fn run_day<'a>(mem: &mut Memory, text: &'a mut [u8; 160], before: u32) -> Day<'a> {
    let start = run(awake(), mem, before);
    let byte = traced_run(start.after, mem, text, 7);
    let end = run(byte.after, mem, 1_000_000);
    Day {
        moved: is_at(start.after, MOVE),
        trace: &text[..byte.written.min(160)],
        cycles: start
            .cycles
            .wrapping_add(byte.cycles)
            .wrapping_add(end.cycles),
        end,
    }
}

impl Day<'_> {
    // STP isn't in the paper's list, so the day's end is a refusal there.
    pub fn is_done(&self) -> bool {
        matches!(self.end.refusal, Some(Refusal::Unlisted)) && is_at(self.end.after, STOP)
    }
}
