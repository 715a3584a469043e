// The day's memory, and numbers in decimal digits as the ROM leaves them there. An address has 16 bits, so each has a byte.
ghost use Rattle.std.specs.Prelude.{◌<◌};

use std::array;

pub type Memory = [u8; 65536];

// The bytes from an address on; past the memory's end its begin comes.
pub fn bytes_at<const N: usize>(mem: &Memory, at: u16) -> [u8; N] {
    array::from_fn(|n| mem[(at as usize).wrapping_add(n) % 65536])
}

// The number that four decimal digits are.
pub fn value(w: u16) -> u64
    ensures { result < 20000 }
{
    let n = w as u64;
    n / 4096 * 1000 + n / 256 % 16 * 100 + n / 16 % 16 * 10 + n % 16
}

// Whether all four are decimal digits.
pub fn is_decimal(w: u16) -> bool {
    [w / 4096, w / 256 % 16, w / 16 % 16, w % 16]
        .iter()
        .all(|d| *d < 10)
}
