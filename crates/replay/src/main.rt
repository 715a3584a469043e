// Replays a file of single instructions, named by the argument, through `request` and `answer`: prints each line that differs and totals.
// One case a line; crates/lines has the format, crates/course what is compared.
#![tactic(auto)]

mod watched;

use crate::watched::Watched;
use gate::args::{get, path};
use gate::reason::explain;
use std::fs::File;
use std::io;
use std::io::{IsTerminal, Read};
use std::rt::Files;
use thresh::list::List;

// Whether a file was read to its end, which it isn't where whoever read the report has left. Nothing says that a file ends, so the turns are at
// most a number that no run uses up.
fn read_all<E: Print + IsTerminal>(
    list: &mut List<'_, Watched<'_>, E>,
    out: &Watched<'_>,
    file: &mut impl Read,
) -> io::Result<bool> {
    let mut bytes = [0u8; 4096];
    for _ in 0..u64::MAX {
        let n = file.read(&mut bytes)?;
        if n == 0 {
            break;
        }
        list.take_bytes(&bytes[..n]);
        if out.has_left() {
            return Ok(false);
        }
    }
    Ok(true)
}

fn refuse(rt: &HostRuntime, what: &str, name: &[u8], why: io::Error) {
    explain(&rt.stderr(), name, why);
    let _ = print!(rt; "refused: {what} ");
    let _ = rt.write_all(name);
    let _ = rt.println("");
}

fn replay(rt: &HostRuntime, file: &mut impl Read, name: &[u8]) {
    let out = Watched::new(rt);
    let err = rt.stderr();
    let mut list = List::new(&out, &err);
    match read_all(&mut list, &out, file) {
        Ok(true) => list.finish(),
        Ok(false) => (),
        Err(why) => refuse(rt, "cannot read", name, why),
    }
}

fn open<R: Files>(rt: &R, name: &[u8]) -> io::Result<R::File> {
    File::open(rt, path(name)?)
}

fn replay_named(rt: &HostRuntime, name: &[u8]) {
    match open(rt, name) {
        Ok(mut file) => replay(rt, &mut file, name),
        Err(why) => refuse(rt, "cannot open", name, why),
    }
}

fn main(rt: HostRuntime) {
    if gate::args::count(&rt) != 2 {
        let _ = rt.println("usage: replay FILE");
        return;
    }
    let mut room = [0u8; 4096];
    match get(&rt, 1, &mut room) {
        Ok(name) => replay_named(&rt, name),
        Err(why) => refuse(&rt, "cannot open", b"a name of more than 4096 bytes", why),
    }
}
