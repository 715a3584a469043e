// Runs an image: `tanker IMAGE A X Y S D PC PBR DBR P E BUDGET`, docs/COMMAND.md.
#![tactic(auto)]

use barn::pieces::{Pieces, run};
use gate::args::Arguments;
use gate::progress::is_shown;
use pails::ran::Ran;
use run_port::runs::glavorint_run;
use std::io;
use std::process::ExitCode;

// Pieces of which nothing is told before the end.
struct Runs;

impl Pieces for Runs {
    const MOST: u32 = 100_000;

    fn piece(&self, rec: &mut [u8], mem: &mut [u8], _before: u32, budget: u32) -> io::Result<Ran> {
        Ok(Ran::of_run(glavorint_run(rec, mem, budget)))
    }
}

fn main(rt: HostRuntime) -> ExitCode {
    let (out, err) = (rt.stdout(), rt.stderr());
    let shown = is_shown(&out, &err, false);
    run(&Arguments::new(&rt, &err), &Runs, shown, &out)
}
