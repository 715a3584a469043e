// 16,384 random deliveries at each width, through the real run over a memory that holds their program: prints start, end, wraps and both sides of
// demand 3. The first delivery to the last is also one run; it must come to the same record.
#![tactic(auto)]

use cpu::record::number_in;
use cpu::types::Record;
use meadow::{COUNT, Delivery, Width, delivery_at, fill};
use run::run::run;
use run::types::Outcome;

// What is counted on the way.
#[derive(Clone, Copy)]
struct Yard {
    at: Record,
    added: u64,
    taken: u64,
    ups: u64,
    downs: u64,
    refused: u64,
}

impl Yard {
    fn new(at: Record) -> Yard {
        Yard {
            at,
            added: 0,
            taken: 0,
            ups: 0,
            downs: 0,
            refused: 0,
        }
    }

    // What a delivery added or took, and whether it wrapped.
    fn counted(self, delivery: Delivery, o: Outcome) -> Yard {
        let carry = o.after.flags.carry;
        let y = Yard {
            at: o.after,
            refused: self.refused.wrapping_add(u64::from(o.refusal.is_some())),
            ..self
        };
        match delivery {
            Delivery::Add(n) => Yard {
                added: y.added.wrapping_add(n),
                ups: y.ups.wrapping_add(u64::from(carry)),
                ..y
            },
            Delivery::Take(n) => Yard {
                taken: y.taken.wrapping_add(n),
                downs: y.downs.wrapping_add(u64::from(!carry)),
                ..y
            },
        }
    }
}

// One delivery after the other, each in a run of its own.
fn deliver_all(mem: &mut [u8; 65536], width: Width, from: Record) -> Yard {
    let mut y = Yard::new(from);
    for i in 0..COUNT {
        let delivery = delivery_at(mem, width, width.place(i));
        y = y.counted(delivery, run(y.at, mem, width.cycles()));
    }
    y
}

// Decimal mode on, the index registers 8 bits wide, A 95 or 9995.
fn start(width: Width) -> Record {
    let (a, p) = match width {
        Width::Byte => (0x0095, 0x38),
        Width::Word => (0x9995, 0x18),
    };
    packed::bytes::start(a, 0, 0, 0x01FF, 0, 0, 0, 0, p, false)
}

fn say_yard(rt: &impl Print, width: Width, from: Record, y: Yard) {
    let Yard {
        added,
        taken,
        ups,
        downs,
        refused,
        ..
    } = y;
    let begin = width.number(from.a);
    let end = width.number(y.at.a);
    let _ = println!(rt; "  start {begin}, added {added}, taken {taken}");
    let _ = println!(rt; "  end {end}, wraps up {ups}, wraps down {downs}, refused {refused}");
    let up = end.wrapping_add(wrapped(width, ups)).wrapping_add(taken);
    let down = begin
        .wrapping_add(added)
        .wrapping_add(wrapped(width, downs));
    let _ = println!(rt; "  end + M x ups + taken = {up}");
    let _ = println!(rt; "  start + added + M x downs = {down}");
}

// M for each wrap, of which there are 16,384 at most.
fn wrapped(width: Width, n: u64) -> u64 {
    n % 65536 * width.modulus()
}

// All deliveries in one run.
fn say_run(rt: &impl Print, mem: &mut [u8; 65536], width: Width, from: Record) {
    let Outcome {
        refusal,
        cycles,
        after,
    } = run(from, mem, COUNT as u32 * width.cycles());
    let end = width.number(after.a);
    let pc = after.pc;
    let number = number_in(refusal);
    let _ = println!(rt; "  in one run: cycles {cycles}, refusal {number}, end {end}, PC {pc}");
}

fn show(rt: &impl Print, name: &str, width: Width, seed: u32) {
    let mut mem = [0u8; 65536];
    let from = start(width);
    fill(&mut mem, width, seed);
    let y = deliver_all(&mut mem, width, from);
    let _ = println!(rt; "{name}, {COUNT} deliveries, seed {seed}");
    say_yard(rt, width, from, y);
    say_run(rt, &mut mem, width, from);
}

fn main(rt: HostRuntime) {
    show(&rt, "8 bits", Width::Byte, 816);
    show(&rt, "16 bits", Width::Word, 65816);
}
