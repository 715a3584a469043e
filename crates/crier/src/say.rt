// How runs ended, in words and numbers. What can't be written nobody can be told.
use cpu::record::number_in;
use cpu::types::Record;
use run::types::Outcome;

// How a run ended: its refusal and its count, and the record after. One still under way is said to be held.
pub fn say_run(rt: &impl Print, name: &str, o: Outcome) {
    let Outcome {
        refusal,
        cycles,
        after,
    } = o;
    let Record { a, x, y, pc, .. } = after;
    let number = number_in(refusal);
    let held = if after.held { "  held" } else { "" };
    let _ = print!(rt; "{name}\n  refusal {number} cycles {cycles}");
    let _ = println!(rt; "  A {a:04x} X {x:04x} Y {y:04x} PC {pc:04x}{held}");
}
