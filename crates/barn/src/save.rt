// The memory after a run, written to a new file that takes the name in one step: what had it before is lost only for the whole.
use gate::args::{Arguments, get, path};
use gate::say::{Complained, complain, complain_of};
use std::env::Env;
use std::fs::{OpenFile, OpenOptions, Permissions};
use std::io::Write;
use std::os::unix::fs::{OpenOptionsExt, PermissionsExt};
use std::rt::Files;
use std::{fs, io};

// How many names are tried for the new file.
const NAMES: u32 = 238_328;

// The system's number for a name that a file has already.
const TAKEN: i32 = 17;

// The letter of a number below 26.
fn letter(n: u32) -> u8 {
    b'a' + (n % 26) as u8
}

// Over the last six letters of a name, six for a number.
fn number(name: &mut [u8], n: u32) {
    let mut left = n;
    for place in name.iter_mut().rev().take(6) {
        *place = letter(left);
        left /= 26;
    }
}

// A new file of that name, for its owner alone.
fn create_new<R: Files>(rt: &R, name: &[u8]) -> io::Result<R::File> {
    OpenOptions::new()
        .read(true)
        .write(true)
        .create_new(true)
        .mode(0o600)
        .open(rt, path(name)?)
}

// A new file, by the first name that no other file has.
fn create_temp<R: Files>(rt: &R, name: &mut [u8]) -> io::Result<R::File> {
    for n in 0..NAMES {
        number(name, n);
        match create_new(rt, name) {
            Err(why) if why.kind() == io::ErrorKind::AlreadyExists => (),
            made => return made,
        }
    }
    Err(io::Error::from_raw_os_error(TAKEN))
}

// The memory, for everybody to read. The file is closed then.
fn write<F: Write + OpenFile + Drop>(mut file: F, mem: &[u8; 65536]) -> io::Result<()> {
    let _ = file.set_permissions(Permissions::from_mode(0o644));
    file.write_all(mem)?;
    file.sync_all()
}

// The new file is whole and has the name.
fn put_in_place<R: Files>(
    rt: &R,
    file: R::File,
    from: &[u8],
    to: &[u8],
    mem: &[u8; 65536],
) -> io::Result<()> {
    write(file, mem)?;
    fs::rename(rt, path(from)?, path(to)?)
}

fn remove(rt: &impl Files, name: &[u8]) -> io::Result<()> {
    fs::remove_file(rt, path(name)?)
}

// By a file beside it, whose name is to end in six letters.
fn save_by(rt: &impl Files, to: &[u8], name: &mut [u8], mem: &[u8; 65536]) -> io::Result<()> {
    let file = create_temp(rt, name)?;
    let put = put_in_place(rt, file, name, to, mem);
    if put.is_err() {
        let _ = remove(rt, name);
    }
    put
}

// The system has no reason to add.
fn refuse_name(err: &impl Print) -> Complained {
    complain(
        err,
        "the memory isn't written: its name is missing or too long",
    )
}

// The file that an argument names.
pub fn save<R: Env + Files, E: Print>(
    args: &Arguments<R, E>,
    file: usize,
    mem: &[u8; 65536],
) -> Result<(), Complained> {
    // with `.XXXXXX` behind it a name has 4,096 characters at most
    let mut room = [0u8; 4089];
    let Ok(to) = get(args.rt, file, &mut room) else {
        return Err(refuse_name(args.err));
    };
    let n = to.len();
    let mut name = [0u8; 4096];
    name[..n].copy_from_slice(to);
    name[n..n + 7].copy_from_slice(b".XXXXXX");
    save_by(args.rt, to, &mut name[..n + 7], mem).map_err(|why| complain_of(
        args.err,
        "the memory isn't written: ",
        to,
        why,
    ))
}
