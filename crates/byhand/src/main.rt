// A bench session by hand: `byhand A X Y S D PC PBR DBR P E` prints each request and reads the byte that answers it, docs/COMMAND.md.
#![tactic(auto)]

use gate::args::Arguments;
use gate::say::{Complained, Status, complain, unread, untold};
use pails::ran::Refusal;
use session_port::sessions::{glavorint_session_answer, glavorint_session_request};
use stall::meaning::Said;
use stall::request::{Request, lay_front};
use stall::{bench, input};
use std::io;
use std::process::ExitCode;

// What a turn leaves: a request to be printed, the first one or the same after a refused byte, one that stands, or none when the bench has done.
#[derive(Clone, Copy, Debug, PartialEq, Eq)]
enum After {
    Next,
    Refused,
    Stands,
    Done,
}

// How a session ends but by the bench.
#[derive(Drop)]
enum End {
    // its record is refused, or its words are none, which is told already
    Refused,
    Complained,
    // output or input that failed
    Untold(io::Error),
    Unread(io::Error),
}

impl From<io::Error> for End {
    fn from(why: io::Error) -> End {
        End::Untold(why)
    }
}

impl From<Complained> for End {
    fn from(_told: Complained) -> End {
        End::Complained
    }
}

fn answer(rt: &impl Print, session: &mut [u8; 40], b: u8) -> io::Result<After> {
    match Refusal::of(glavorint_session_answer(session, b)) {
        None => Ok(After::Next),
        Some(refusal) => {
            bench::unlisted(rt, refusal)?;
            Ok(After::Refused)
        }
    }
}

// One line of the bench to a request.
fn hear(rt: &HostRuntime, session: &mut [u8; 40], write: bool) -> Result<After, End> {
    match input::next(&mut rt.stdin(), write).map_err(End::Unread)? {
        Said::Byte(b) => Ok(answer(rt, session, b)?),
        Said::Record => {
            bench::show_words(rt, session)?;
            Ok(After::Next)
        }
        Said::Quit => Ok(After::Done),
        Said::Other => {
            bench::puzzled(rt)?;
            Ok(After::Stands)
        }
    }
}

// One request, printed where it doesn't stand already.
fn turn(rt: &HostRuntime, session: &mut [u8; 40], stands: bool) -> Result<After, End> {
    let asked = Request(glavorint_session_request(session));
    if let Some(refusal) = asked.refusal() {
        bench::refused(rt, &rt.stderr(), session, refusal)?;
        return Err(End::Refused);
    }
    if !stands {
        bench::show(rt, session, asked)?;
    }
    hear(rt, session, asked.writes())
}

// Nothing says that the input ends, so the turns are at most a number that no session uses up.
fn sit(rt: &HostRuntime, session: &mut [u8; 40]) -> Result<Status, End> {
    let mut stands = false;
    let mut status = Status::Done;
    for _ in 0..u64::MAX {
        let after = turn(rt, session, stands)?;
        match after {
            After::Done => break,
            // once a byte was refused
            After::Refused => status = Status::Refused,
            After::Next | After::Stands => (),
        }
        stands = after == After::Stands;
    }
    bench::finish(rt, session)?;
    Ok(status)
}

// Ten words or sixteen. A session begins with no cycle done.
fn begin(rt: &HostRuntime) -> Result<Status, End> {
    let err = rt.stderr();
    let args = Arguments::plain(rt, &err);
    let words = match args.count {
        11 => 10,
        17 => 16,
        _ => {
            let usage =
                "usage: step A X Y S D PC PBR DBR P E [HELD OPCODE CYCLE ADDRESS DATA BANK]";
            return Err(complain(&err, usage).into());
        }
    };
    let mut rec = [0u8; 32];
    gate::start::read(&args, words, 1, &mut rec)?;
    let mut session = [0u8; 40];
    lay_front(&mut session, &rec);
    sit(rt, &mut session)
}

fn main(rt: HostRuntime) -> ExitCode {
    match begin(&rt) {
        Ok(status) => status.into(),
        Err(End::Refused) => Status::Refused.into(),
        Err(End::Complained) => Complained.into(),
        Err(End::Untold(why)) => untold(&rt.stderr(), why),
        Err(End::Unread(why)) => unread(&rt.stderr(), why),
    }
}
