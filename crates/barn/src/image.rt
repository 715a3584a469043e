// An image's bytes, which are the memory from 000000 on.
ghost use Rattle.std.specs.Prelude.{◌≤◌, length};

use gate::args::{Arguments, get, path};
use gate::say::{Complained, complain_of};
use pails::image::{NoImage, size};
use std::env::Env;
use std::fs::File;
use std::io;
use std::io::Read;
use std::rt::Files;

fn refuse(err: &impl Print, name: &[u8], why: io::Error) -> Complained {
    complain_of(err, "the image can't be read (refusal 1): ", name, why)
}

// Until the memory is full, the file ends or a read fails: how many bytes came, and why no more did. How far a read comes is its own to say, so no
// iterator goes over the bytes.
fn read_full(file: &mut impl Read, mem: &mut [u8]) -> (usize, io::Result<()>)
    ensures { result.0 ≤ length mem.new }
{
    let mut done = 0;
    while done < mem.len() {
        match file.read(&mut mem[done..]) {
            Ok(0) => break,
            Ok(n) => done += n,
            Err(why) => return (done, Err(why)),
        }
    }
    (done, Ok(()))
}

// Why a file couldn't be read: what the last read says, or else what ended those before it. 0 is the system's number for no reason yet.
fn reason(last: io::Result<usize>, end: io::Result<()>) -> io::Error {
    match (last, end) {
        (Err(why), _) => why,
        (Ok(_), Err(why)) => why,
        (Ok(_), Ok(())) => io::Error::from_raw_os_error(0),
    }
}

// How many bytes a file has, or none for any that are too many. One read after the bytes tells whether there are more.
fn read_all(file: &mut impl Read, mem: &mut [u8; 65536]) -> io::Result<Option<usize>> {
    let (got, end) = read_full(file, mem);
    let mut one = [0u8; 1];
    let last = file.read(&mut one);
    let more = match &last {
        Ok(n) => Some(*n > 0),
        Err(_) => None,
    };
    match size(got, more) {
        Ok(n) => Ok(Some(n)),
        Err(NoImage::TooLong) => Ok(None),
        Err(NoImage::Unread) => Err(reason(last, end)),
    }
}

fn read_named(rt: &impl Files, name: &[u8], mem: &mut [u8; 65536]) -> io::Result<Option<usize>> {
    let mut file = File::open(rt, path(name)?)?;
    read_all(&mut file, mem)
}

// The same of the image that the arguments name.
pub fn load<R: Env + Files, E: Print>(
    args: &Arguments<R, E>,
    mem: &mut [u8; 65536],
) -> Result<Option<usize>, Complained> {
    let mut room = [0u8; 4096];
    let name = match get(args.rt, args.place(1), &mut room) {
        Ok(name) => name,
        Err(why) => return Err(refuse(args.err, b"its name", why)),
    };
    read_named(args.rt, name, mem).map_err(|why| refuse(args.err, name, why))
}
