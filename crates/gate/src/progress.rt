// How far a long run is, where somebody looks on.
use std::io::IsTerminal;

// Where it is shown, if it is, and of how many cycles.
#[derive(Drop)]
pub struct Progress<'a, E> {
    err: &'a E,
    shown: bool,
    budget: u32,
}

// Where standard output is a terminal a trace shows its own progress.
pub fn is_shown(out: &impl IsTerminal, err: &impl IsTerminal, trace: bool) -> bool {
    err.is_terminal() && !(trace && out.is_terminal())
}

impl<'a, E: Print> Progress<'a, E> {
    pub fn new(err: &'a E, shown: bool, budget: u32) -> Progress<'a, E> {
        Progress { err, shown, budget }
    }

    // At each 100,000 cycles.
    pub fn show(&self, done: u32) {
        if self.shown && done % 100_000 == 0 {
            let _ = print!(self.err; "\r{done} of {} cycles", self.budget);
        }
    }

    pub fn clear(&self) {
        if self.shown {
            let _ = print!(self.err; "\r                           \r");
        }
    }
}
