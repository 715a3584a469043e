// Text to standard output or standard error, and the status that the command ends with.
use crate::reason::explain;
use pails::ran::Refusal;
use std::fmt::{Display, Formatter, Write};
use std::process::ExitCode;
use std::{fmt, io};

// What a program of the command ends with.
#[derive(Clone, Copy, Debug, PartialEq, Eq)]
pub enum Status {
    Done,
    // or the reader closed the pipe
    Refused,
    // bad usage, or a file, the input or the output that failed
    Bad,
}

impl From<Status> for ExitCode {
    fn from(status: Status) -> ExitCode {
        match status {
            Status::Done => ExitCode::SUCCESS,
            Status::Refused => ExitCode::FAILURE,
            Status::Bad => ExitCode::from(2),
        }
    }
}

// What was wrong is told already; the program ends with `Bad`.
#[derive(Clone, Copy, Debug, PartialEq, Eq)]
pub struct Complained;

impl From<Complained> for ExitCode {
    fn from(_told: Complained) -> ExitCode {
        Status::Bad.into()
    }
}

// A line of complaint. Nobody can be told of one that couldn't be written.
pub fn complain(err: &impl Print, what: impl Display + Drop) -> Complained {
    let _ = println!(err; "glavorint: {what}");
    Complained
}

// One that ends in a name, which may be no text, and the system's reason.
pub fn complain_of(err: &impl Print, what: &str, name: &[u8], why: io::Error) -> Complained {
    let _ = print!(err; "glavorint: {what}");
    explain(err, name, why);
    Complained
}

// The end of a program whose output couldn't be written. Whoever closed the pipe knows; any other failure is said.
pub fn untold(err: &impl Print, why: io::Error) -> ExitCode {
    if why.kind() == io::ErrorKind::BrokenPipe {
        Status::Refused.into()
    } else {
        complain_of(err, "", b"standard output", why).into()
    }
}

// The end of one whose input couldn't be read.
pub fn unread(err: &impl Print, why: io::Error) -> ExitCode {
    complain_of(err, "", b"standard input", why).into()
}

// At most 40 characters of an argument as they are typed, in quotes.
#[derive(Clone, Copy)]
pub struct Quoted<'a>(pub &'a [u8]);

// The unprintable ones are a question mark, so that a complaint stays one line.
fn shown(b: u8) -> char {
    match b {
        32..=126 => char::from(b),
        _ => '?',
    }
}

impl Display for Quoted<'_> {
    fn fmt<W: Write>(&self, f: &mut Formatter<W>) -> fmt::Result {
        f.write_str("'")?;
        for &b in self.0.iter().take(40) {
            f.write_char(shown(b))?;
        }
        f.write_str(if self.0.len() > 40 { "..'" } else { "'" })
    }
}

// The line of a packed record's sixteen words.
pub fn say_record(to: &impl Print, rec: &[u8; 32]) -> io::Result<()> {
    to.write_all(b"record ")?;
    to.write_all(&slip::line::line(rec))?;
    to.write_all(b"\n")
}

// Document 01's words for a refusal.
pub fn say_reason(err: &impl Print, refusal: Refusal) {
    complain(err, format_args!("refused with {}: {refusal}", refusal.0));
}
