// How a run ended: its lines, the memory where it is asked for, the status.
use crate::save::save;
use gate::args::Arguments;
use gate::say::{Complained, Status, say_reason, say_record, untold};
use pails::ran::{Ran, Refusal};
use std::env::Env;
use std::io;
use std::process::ExitCode;
use std::rt::Files;

// The three lines.
fn tell(to: &impl Print, ran: Ran, rec: &[u8; 32]) -> io::Result<()> {
    match ran.refusal {
        None => println!(to; "refusal none")?,
        Some(refusal) => println!(to; "refusal {}", refusal.0)?,
    }
    println!(to; "cycles {}", ran.cycles)?;
    say_record(to, rec)
}

// The memory, where it is asked for and a run over it was begun.
fn keep<R: Env + Files, E: Print>(
    args: &Arguments<R, E>,
    mem: &[u8; 65536],
    refusal: Option<Refusal>,
) -> Result<(), Complained> {
    match (args.out_file(), refusal) {
        (Some(file), None | Some(Refusal(4..))) => save(args, file, mem),
        _ => Ok(()),
    }
}

// The end of a run over the memory. That is kept first: whoever reads the lines may leave after one, which ends the program.
pub fn report<R: Env + Files, E: Print>(
    args: &Arguments<R, E>,
    to: &impl Print,
    ran: Ran,
    rec: &[u8; 32],
    mem: &[u8; 65536],
) -> ExitCode {
    let kept = keep(args, mem, ran.refusal);
    if let Err(why) = tell(to, ran, rec) {
        return untold(args.err, why);
    }
    if let Some(refusal) = ran.refusal {
        say_reason(args.err, refusal);
    }
    match (kept, ran.refusal) {
        (Err(told), _) => told.into(),
        (Ok(()), Some(_)) => Status::Refused.into(),
        (Ok(()), None) => Status::Done.into(),
    }
}
