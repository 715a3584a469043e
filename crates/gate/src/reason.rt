// Why the system couldn't do what was asked of it.
ghost use Rattle.std.specs.Prelude.{◌≤◌, length};

use std::io;
use std::io::{Cursor, Write};

// How much of a reason's text is the system's own: std adds ` (os error 2)`, or another number.
fn own(text: &[u8]) -> &[u8]
    ensures { length result.now ≤ length text.now }
{
    let number = b" (os error ".as_slice();
    match text.windows(number.len()).position(|part| part == number) {
        Some(at) => &text[..at],
        None => text,
    }
}

// A line on standard error: what couldn't be done, a colon, and the reason.
pub fn explain(err: &impl Print, what: &[u8], why: io::Error) {
    let mut room = Cursor::new([0u8; 256]);
    let _ = write!(room, "{why}");
    let told = (room.position() as usize).min(256);
    let _ = err.write_all(what);
    let _ = err.write_all(b": ");
    let _ = err.write_all(own(&room.get_ref()[..told]));
    let _ = err.write_all(b"\n");
}
