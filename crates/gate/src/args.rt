// Words among the arguments.
ghost use Rattle.std.specs.Prelude.{◌≡◌, ◌+◌, ◌%◌, ◌^◌, ◌≤◌, length, IfOk};
ghost use Rattle.std.specs.Option.{option_map};
ghost use Rattle.pails.specs.Pails.{argument_at};

use std::env::{Env, FillError};
use std::io;

// The system's numbers for what is wrong with an argument: it is missing, too long, or no text.
const MISSING: i32 = 22;

const TOO_LONG: i32 = 36;

const NO_TEXT: i32 = 84;

// An argument's bytes, which are put into `room`; or why they can't be had.
pub fn get<'a>(rt: &impl Env, arg: usize, room: &'a mut [u8]) -> io::Result<&'a [u8]>
    ensures { IfOk result (λ text. length text.now ≤ length room.old) }
{
    match rt.arg(arg, room) {
        Ok(n) => Ok(&room[..n]),
        Err(FillError::NotPresent) => Err(io::Error::from_raw_os_error(MISSING)),
        Err(FillError::TooLong) => Err(io::Error::from_raw_os_error(TOO_LONG)),
    }
}

// A file's name as text: std opens no other.
pub fn path(name: &[u8]) -> io::Result<&str> {
    str::from_utf8(name).map_err(|_| io::Error::from_raw_os_error(NO_TEXT))
}

// Whether an argument is that word, which has at most 16 characters.
fn is_word(rt: &impl Env, arg: usize, word: &[u8]) -> bool {
    let mut room = [0u8; 16];
    get(rt, arg, &mut room).is_ok_and(|text| text == word)
}

// How many arguments there are, the program's own name among them.
pub fn count(rt: &impl Env) -> usize {
    let past = |&i: &usize| matches!(rt.arg(i, &mut []), Err(FillError::NotPresent));
    (0..usize::MAX).find(past).unwrap_or(usize::MAX)
}

// A program's arguments, with what it asks the system by and where it complains.
#[derive(Drop)]
pub struct Arguments<'a, R, E> {
    pub rt: &'a R,
    pub err: &'a E,
    pub count: usize,
    // where `--out` stands
    pub out: Option<usize>,
}

impl<'a, R: Env, E> Arguments<'a, R, E> {
    // Where `--out` is a word like any other.
    pub fn plain(rt: &'a R, err: &'a E) -> Arguments<'a, R, E> {
        Arguments {
            rt,
            err,
            count: count(rt),
            out: None,
        }
    }

    pub fn new(rt: &'a R, err: &'a E) -> Arguments<'a, R, E> {
        let count = count(rt);
        let out = (1..count).find(|&i| is_word(rt, i, b"--out"));
        Arguments {
            rt,
            err,
            count,
            out,
        }
    }

    // The argument at a place, counted without `--out FILE`.
    pub fn place(&self, i: usize) -> usize
        ensures { result ≡ argument_at self.now.out i }
    {
        pails::args::place(self.out, i)
    }

    // The place of FILE.
    pub fn out_file(&self) -> Option<usize>
        ensures { result ≡ option_map (λ out. (out + 1) % 2 ^ 64) self.now.out }
    {
        self.out.map(|out| out.wrapping_add(1))
    }
}
