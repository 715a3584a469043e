// What the runs start from.
use cpu::types::Record;

// In native mode at 8000; P gives M, X, D and C. drill has the same line: only crates of the library lie below both, and one more crate for a line
// would be no plainer.
pub fn native(p: u8) -> Record {
    packed::bytes::start(0, 0, 0, 0x01FF, 0, 0x8000, 0, 0, p, false)
}
