// Runs over a lent memory that are refused, and the longest that isn't.
use cpu::types::Record;
use crier::say::say_run;
use crier::start::native;
use run::run::run;

// 8 bits wide.
const NARROW: u8 = 0x30;

pub fn short_memory(rt: &impl Print) {
    let mut short = [0u8; 65535];
    say_run(
        rt,
        "memory of 65,535 bytes",
        run(native(NARROW), &mut short, 1),
    );
}

// The record has S 0200 in emulation.
fn malformed() -> Record {
    packed::bytes::start(0, 0, 0, 0x0200, 0, 0x8000, 0, 0, NARROW, true)
}

pub fn refusals(rt: &impl Print) {
    let mut mem = [0u8; 65536];
    let start = native(NARROW);
    mem[0x8000] = 0x80;
    mem[0x8001] = 0xFE;
    say_run(
        rt,
        "budget 1,000,000, BRA to itself",
        run(start, &mut mem, 1000000),
    );
    say_run(rt, "budget 1,000,001", run(start, &mut mem, 1000001));
    say_run(
        rt,
        "a record that isn't well formed, budget 0",
        run(malformed(), &mut mem, 0),
    );
    say_run(rt, "the same, budget 1", run(malformed(), &mut mem, 1));
    say_run(
        rt,
        "program bank 01",
        run(Record { pbr: 1, ..start }, &mut mem, 1),
    );
    mem[0x8000] = 0xEA;
    mem[0x8001] = 0x00;
    say_run(
        rt,
        "NOP, then a byte that isn't listed",
        run(start, &mut mem, 10),
    );
}
