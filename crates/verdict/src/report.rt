// What is said of a line that is malformed, of an opcode, and of them all. What can't be written nobody can be told.
use lines::types::{Fault, Tally};

fn reason(f: Fault) -> &'static str {
    match f {
        Fault::Length => "longer than 1023 bytes",
        Fault::Id => "the id",
        Fault::Source => "the source",
        Fault::Start => "the start's words",
        Fault::Cycles => "the cycles",
        Fault::After => "the words after",
        Fault::Extra => "characters after the last word",
    }
}

pub fn malformed(rt: &impl Print, line: u64, f: Fault) {
    let _ = println!(rt; "line {line}: malformed: {}", reason(f));
}

// Opcodes that agree are passed over.
pub fn opcode_total(rt: &impl Print, opcode: u8, replayed: u64, differ: u64) {
    if differ > 0 {
        let _ = println!(rt; "opcode {opcode:02X}: {replayed} replayed, {differ} differ");
    }
}

pub fn total(rt: &impl Print, t: Tally) {
    let Tally {
        agree,
        differ,
        bad,
        ..
    } = t;
    let all = t.lines();
    let _ = println!(rt; "{all} lines: {agree} agree, {differ} differ, {bad} bad");
}
