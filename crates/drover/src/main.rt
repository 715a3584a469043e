// Traces an image: `drover IMAGE A X Y S D PC PBR DBR P E BUDGET`, docs/COMMAND.md.
#![tactic(auto)]

use barn::pieces::{Pieces, run};
use gate::args::Arguments;
use gate::progress::is_shown;
use pails::ran::{Ran, spelt, written};
use std::io;
use std::process::ExitCode;
use trace_port::traces::glavorint_trace;

// The written front of a text.
fn put_text(to: &impl Print, text: &[u8], size: usize) -> io::Result<()> {
    match text.get(..size) {
        Some(front) => to.write_all(front),
        None => Err(io::Error::from(io::ErrorKind::InvalidData)),
    }
}

// Pieces whose lines go to `to`.
#[derive(Drop)]
struct Traces<'a, P> {
    to: &'a P,
}

impl<P: Print> Pieces for Traces<'_, P> {
    const MOST: u32 = 1000;

    // The lines have room in 6 + 22 × 1,000 bytes.
    fn piece(&self, rec: &mut [u8], mem: &mut [u8], before: u32, budget: u32) -> io::Result<Ran> {
        let mut text = [0u8; 22006];
        let n = glavorint_trace(rec, mem, &mut text, before, budget);
        let told = put_text(self.to, &text, written(n));
        spelt(n, told).map_err(|cut| cut.why)
    }
}

fn main(rt: HostRuntime) -> ExitCode {
    let (out, err) = (rt.stdout(), rt.stderr());
    let shown = is_shown(&out, &err, true);
    run(
        &Arguments::new(&rt, &err),
        &Traces { to: &out },
        shown,
        &err,
    )
}
