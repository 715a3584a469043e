// Runs over a lent memory.
use cpu::types::Record;
use crier::say::say_run;
use crier::start::native;
use run::run::run;

fn say_byte(rt: &impl Print, mem: &[u8; 65536], at: u16) {
    let byte = mem[at as usize];
    let _ = println!(rt; "  byte at {at:04X}: {byte}");
}

// Each byte of the memory onto itself, seven cycles a byte.
fn moved_in_place(rt: &impl Print, name: &str, p: u8, mem: &mut [u8; 65536]) {
    let r = Record {
        a: 0xFFFF,
        ..native(p)
    };
    say_run(rt, name, run(r, mem, 458752));
}

// MVN in bank 0, from X on to Y on.
pub fn moves(rt: &impl Print) {
    let mut mem = [0u8; 65536];
    mem[0x8000] = 0x54;
    mem[0x1000] = 101;
    mem[0x1001] = 102;
    let one = Record {
        x: 0x1000,
        y: 0x2000,
        ..native(0x00)
    };
    say_run(rt, "MVN with A 0000", run(one, &mut mem, 7));
    say_byte(rt, &mem, 0x2000);
    say_byte(rt, &mem, 0x2001);
    moved_in_place(rt, "MVN with A FFFF, each byte onto itself", 0x00, &mut mem);
    moved_in_place(rt, "the same, 8 bits wide", 0x30, &mut mem);
    let narrow = Record {
        a: 1,
        x: 0x00FF,
        ..native(0x30)
    };
    say_run(
        rt,
        "MVN, 8-bit index, X FF, one byte of two",
        run(narrow, &mut mem, 7),
    );
}

// What was written before a refusal stays.
pub fn written(rt: &impl Print) {
    let mut mem = [0u8; 65536];
    mem[0x8000] = 0x85;
    mem[0x8001] = 0x10;
    let start = Record {
        a: 0x0042,
        ..native(0x30)
    };
    say_run(
        rt,
        "STA 10, then a byte that isn't listed",
        run(start, &mut mem, 10),
    );
    say_byte(rt, &mem, 0x0010);
    internal(rt, &mut mem, start);
}

// An internal cycle outside bank 0 is refused like any other.
fn internal(rt: &impl Print, mem: &mut [u8; 65536], start: Record) {
    let nop = Record {
        held: true,
        ir: 0xEA,
        tcu: 1,
        pbr: 1,
        ..start
    };
    say_run(
        rt,
        "the internal cycle of NOP in bank 01",
        run(nop, mem, 10),
    );
}
