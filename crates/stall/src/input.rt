// Lines of standard input, byte by byte, so that none is taken which another reader of it should have.
use crate::meaning::{Said, meant};
use std::io;
use std::io::Read;

// A character, or none at the end of the input; or why it can't be read.
fn get(input: &mut impl Read) -> io::Result<Option<u8>> {
    let mut one = [0u8; 1];
    let got = input.read(&mut one)?;
    Ok((got > 0).then_some(one[0]))
}

// Some systems end a line by CR and LF.
fn without_cr(line: &[u8]) -> &[u8] {
    line.strip_suffix(b"\r").unwrap_or(line)
}

// The characters of a line, of which the first 8 are kept: what is longer is no word of ours. None is the end of the input; a last line without its
// end counts.
fn line<'a>(input: &mut impl Read, room: &'a mut [u8; 8]) -> io::Result<Option<&'a [u8]>> {
    let mut n = 0;
    for _ in 0..u64::MAX {
        match get(input)? {
            Some(b'\n') => return Ok(Some(without_cr(&room[..n]))),
            Some(b) if n < 8 => {
                room[n] = b;
                n += 1;
            }
            Some(_) => (),
            None => break,
        }
    }
    Ok((n > 0).then_some(&room[..n]))
}

// What the next line means to a request that writes or reads.
pub fn next(input: &mut impl Read, write: bool) -> io::Result<Said> {
    let mut room = [0u8; 8];
    let line = line(input, &mut room)?;
    Ok(meant(line, write))
}
