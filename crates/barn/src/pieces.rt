// A run of an image in pieces, between which it is shown how far it is.
use crate::image::load;
use crate::report::report;
use gate::args::Arguments;
use gate::progress::Progress;
use gate::say::{Status, untold};
use gate::start::asked;
use pails::pieces::{first, left_after};
use pails::ran::Ran;
use std::env::Env;
use std::io;
use std::process::ExitCode;
use std::rt::Files;

// What goes on over a record and a memory.
pub trait Pieces {
    // The most cycles of a piece.
    const MOST: u32;

    // A piece of at most `budget` cycles, `before` having been done: how it ended, or why it couldn't be told.
    fn piece(&self, rec: &mut [u8], mem: &mut [u8], before: u32, budget: u32) -> io::Result<Ran>;
}

// At most `budget` cycles: how they ended. What is left goes down by a piece, and a refusal ends it, so no range counts the turns.
fn all_pieces<P: Pieces, E: Print>(
    of: &P,
    progress: &Progress<E>,
    rec: &mut [u8],
    mem: &mut [u8],
    budget: u32,
) -> io::Result<Ran> {
    let size = first(budget, P::MOST);
    let mut ran = of.piece(rec, mem, 0, size)?;
    let mut left = left_after(budget, size);
    while left > 0 && ran.refusal.is_none() {
        progress.show(ran.cycles);
        let size = first(left, P::MOST);
        ran = ran.joined(of.piece(rec, mem, ran.cycles, size)?);
        left = left_after(left, P::MOST);
    }
    Ok(ran)
}

// The command on its arguments. `shown` is whether somebody looks on; the lines go to `to`.
pub fn run<R: Env + Files, E: Print, P: Pieces>(
    args: &Arguments<R, E>,
    of: &P,
    shown: bool,
    to: &impl Print,
) -> ExitCode {
    let mut rec = [0u8; 32];
    let budget = match asked(args, &mut rec) {
        Ok(budget) => budget,
        Err(told) => return told.into(),
    };
    let mut mem = [0u8; 65536];
    let size = match load(args, &mut mem) {
        Ok(size) => size,
        Err(told) => return told.into(),
    };
    let progress = Progress::new(args.err, shown, budget);
    // an image that isn't bank 0's size is run over a memory that the core refuses too
    let ran = if size == Some(65536) {
        all_pieces(of, &progress, &mut rec, &mut mem, budget)
    } else {
        all_pieces(of, &progress, &mut rec, &mut [0], budget)
    };
    progress.clear();
    match ran {
        Ok(ran) => report(args, to, ran, &rec, &mem),
        Err(why) => untold(args.err, why),
    }
}
