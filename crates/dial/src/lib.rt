// A trace's lines one after the other: the number of each turned on from the one before, and the end of a line as a word.
#![tactic(auto)]

ghost use Rattle.std.specs.Prelude.{◌≡◌};
ghost use Rattle.dial.specs.Dial.{packed, of_tens, dial_of, turn_of, tail_text};

use trace::hex_pair;

// The number of a trace's line, as a meter's dial shows it: seven digits and a last one, which turns on from line to line.
#[derive(Clone, Copy)]
pub struct Dial {
    pub front: u64, // the digits before the last, a byte each, the first one lowest
    pub width: usize, // how many they are
    pub tens: u32, // the number without its last digit
    pub last: u8, // the last digit, in ASCII
}

// The dial of a number's tens and its last digit. The digits come last first and end where nothing is left: no index is counted.
fn of_tens(m: u32, last: u8) -> Dial
    ensures { result ≡ of_tens m last }
{
    let tens = m % 10_000_000;
    let mut front: u64 = 0;
    let mut width = 0;
    let mut k = tens;
    while 0 < k {
        front = front * 256 + (48 + k % 10) as u64;
        width += 1;
        k /= 10;
    }
    Dial {
        front,
        width,
        tens,
        last,
    }
}

// The dial that shows a number, or what is left of it below 100,000,000.
pub fn dial_of(n: u32) -> Dial
    ensures { result ≡ dial_of n }
{
    of_tens(n / 10, (48 + n % 10) as u8)
}

// The dial one line on; nine times in ten its last digit alone turns.
pub fn turned(d: Dial) -> Dial
    ensures { result ≡ turn_of d }
{
    if d.last < 57 {
        return Dial {
            last: d.last + 1,
            ..d
        };
    }
    of_tens(d.tens % 10_000_000 + 1, 48)
}

// The end of a line as a word: the address's low 16 bits, a tab (9), the byte, LF (10).
pub fn tail(p: u16, byte: u8) -> u64
    ensures { result ≡ packed (tail_text p byte) }
{
    (hex_pair((p / 256) as u8) as u64)
        + 65536 * (hex_pair((p % 256) as u8) as u64)
        + 9 * 4294967296
        + 1099511627776 * (hex_pair(byte) as u64)
        + 10 * 72057594037927936
}
