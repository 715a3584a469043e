// A trace and a bench session over a lent memory.
use cpu::record::number_in;
use crier::say::say_run;
use crier::start::native;
use run::types::Outcome;
use session::session::{answered, cycled, start};
use session::types::{Session, Stepped};
use traced::traced::traced_run;
use traced::types::Traced;

// Budget 4.
fn traced(rt: &impl Print, name: &str, mem: &mut [u8; 65536], text: &mut [u8]) {
    let Traced {
        refusal,
        cycles,
        after,
        ..
    } = traced_run(native(0x30), mem, text, 4);
    say_run(
        rt,
        name,
        Outcome {
            refusal,
            cycles,
            after,
        },
    );
    let _ = rt.write_all(text);
    let _ = rt.println("");
}

// CLC, ADC #01. What isn't written stays as it was, dots.
pub fn traces(rt: &impl Print) {
    let mut mem = [0u8; 65536];
    let mut room = [b'.'; 94];
    let mut less = [b'.'; 93];
    mem[0x8000] = 0x18;
    mem[0x8001] = 0x69;
    mem[0x8002] = 0x01;
    traced(rt, "budget 4, text room 94", &mut mem, &mut room);
    traced(rt, "budget 4, text room 93", &mut mem, &mut less);
}

// What a session's cycle came to.
fn stepped(rt: &impl Print, name: &str, t: Stepped) -> Session {
    let Stepped { session, refusal } = t;
    let Session { at, cycles } = session;
    let number = number_in(refusal);
    let pc = at.pc;
    let _ = println!(rt; "{name}\n  number {number} count {cycles} PC {pc:04x}");
    session
}

// A bench session, by value: CLC over memory, then a byte that isn't listed is answered by hand. P gives the carry.
pub fn sessions(rt: &impl Print) {
    let mut mem = [0u8; 65536];
    mem[0x8000] = 0x18;
    let s = start(native(0x31));
    let one = stepped(rt, "session, a cycle", cycled(s, &mut mem));
    let two = stepped(rt, "session, another", cycled(one, &mut mem));
    stepped(rt, "session, 00 is answered", answered(two, 0));
}
