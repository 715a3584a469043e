// What the figures are printed with. What can't be written nobody can be told.
use cpu::types::{Record, Refusal, Request};
use tables::count::{cycle_count, length_of};

// A figure's name, and what the constant tables say of its first byte: a branch's count is that of one that isn't taken.
pub fn say_head(rt: &impl Print, name: &str, from: Record, bytes: &[u8]) {
    let _ = rt.println(name);
    if let [first, ..] = bytes {
        let cycles = cycle_count(*first, from.flags, from.d);
        let size = length_of(*first, from.flags);
        let _ = println!(rt; "  table: cycles {cycles} bytes {size}");
    }
}

// One line of a trace, numbered within its figure: 16 bytes, since no figure has more than nine cycles.
pub fn say_line(rt: &impl Print, n: u32, q: Request) {
    let mut text = [0u8; 16];
    trace::put_line(&mut text, 0, n, q);
    let _ = rt.print("  ");
    let _ = rt.write_all(&text);
}

// A record still under way is said to be held.
pub fn say_record(rt: &impl Print, r: Record, cycles: usize) {
    let f = r.flags;
    let Record { a, x, s, pc, .. } = r;
    let [n, v, z, c] = [f.negative, f.overflow, f.zero, f.carry].map(u8::from);
    let held = if r.held { "  held" } else { "" };
    let _ = print!(rt; "  A {a:04X} X {x:04X} S {s:04X} PC {pc:04X}");
    let _ = println!(rt; "  N {n} V {v} Z {z} C {c}  cycles {cycles}{held}");
}

// The refusal that ended a figure.
pub fn say_stop(rt: &impl Print, why: Refusal) {
    let _ = println!(rt; "  refused: {}", u8::from(why));
}
