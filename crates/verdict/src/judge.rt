// A case's verdict, and a sign of life.
use crate::case::Case;
use course::run::{is_same, run};
use std::io::IsTerminal;

// How many blocks are shown.
const SHOWN: u64 = 20;

// A sign of life on long work, where somebody looks on.
pub fn progress(err: &(impl Print + IsTerminal), n: u64) {
    if n % 100000 == 0 && err.is_terminal() {
        let _ = println!(err; "{n} lines");
    }
}

// Whether a case agrees. If not, it is shown where it is one of the first that differ, of which there were `differ` before it.
pub fn judge(rt: &impl Print, case: &Case<'_>, differ: u64) -> bool {
    let c = run(case.text, case.places);
    if is_same(case.text, case.places, c) {
        return true;
    }
    if differ < SHOWN {
        let _ = case.say_block(rt, c);
    } else if differ == SHOWN {
        let _ = println!(rt; "more blocks differ; only {SHOWN} are shown");
    }
    false
}
