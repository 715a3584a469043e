// The text of a trace, written into a lent buffer: the header, and a line for each completed cycle. The buffer and the place in it are two parameters
// throughout, for speed: a mark that is handed over by reference was slower (docs/SPEED.md).
#![tactic(auto)]

ghost use Rattle.std.specs.Prelude.{◌≡◌, [], ◌∷◌, ◌++◌, ◌+◌, ◌*◌, ◌/◌, ◌%◌, ◌≤◌, ◌<◌, leb, length};
ghost use Rattle.trace.specs.Text.{decimal, hex_digit, hex2, hex6, letter, direction, line_text, header, Put, Wrote};
ghost use Rattle.trace.specs.Places.{digit_at, upper_of, lower_of, front_of, four_of};

use cpu::types::{Kind, Request};

// Whether `size` bytes have room at a place of a buffer, be the place beyond its end.
pub fn has_room(len: usize, at: usize, size: usize) -> bool
    ensures { result ≡ leb (at + size) len }
{
    if len < size {
        return false;
    }
    at <= len - size
}

// Fixed bytes, where they have room.
fn put_bytes(text: &mut [u8], at: usize, src: &[u8]) -> usize
    ensures { Put text.old text.new at result src.now }
{
    if !has_room(text.len(), at, src.len()) {
        return at;
    }
    let end = at + src.len();
    text[at..end].copy_from_slice(src);
    end
}

// The header of a trace at a place of the text, and the place after it; without room the text stays, and the place is `at`.
pub fn put_header(text: &mut [u8], at: usize) -> usize
    ensures { Put text.old text.new at result header }
{
    put_bytes(text, at, b"bus\t1\n")
}

// How many decimal digits a number has.
fn width(n: u32) -> usize
    ensures { result ≡ length (decimal n) }
{
    if n < 10 {
        return 1;
    }
    if n < 100 {
        return 2;
    }
    if n < 1000 {
        return 3;
    }
    if n < 10000 {
        return 4;
    }
    if n < 100000 {
        return 5;
    }
    if n < 1000000 {
        return 6;
    }
    if n < 10000000 {
        return 7;
    }
    if n < 100000000 {
        return 8;
    }
    if n < 1000000000 {
        return 9;
    }
    10
}

// The decimal digit of weight w, if the number has it. By weights the divisions don't wait for each other.
fn put_digit(text: &mut [u8], at: usize, n: u32, w: u32) -> usize
    requires { (0 < w) × (at + length (digit_at w n) ≤ length text.old) }
    ensures { Wrote text.old text.new at result (digit_at w n) }
{
    if n < w {
        return at;
    }
    text[at] = (48 + n / w % 10) as u8;
    at + 1
}

// Any number weight by weight, in two halves.
fn put_upper(text: &mut [u8], at: usize, n: u32) -> usize
    requires { at + length (upper_of n) ≤ length text.old }
    ensures { Wrote text.old text.new at result (upper_of n) }
{
    let p = put_digit(text, at, n, 1000000000);
    let p = put_digit(text, p, n, 100000000);
    let p = put_digit(text, p, n, 10000000);
    let p = put_digit(text, p, n, 1000000);
    put_digit(text, p, n, 100000)
}

fn put_lower(text: &mut [u8], at: usize, n: u32) -> usize
    requires { at + length (lower_of n) ≤ length text.old }
    ensures { Wrote text.old text.new at result (lower_of n) }
{
    let p = put_digit(text, at, n, 10000);
    let p = put_digit(text, p, n, 1000);
    let p = put_digit(text, p, n, 100);
    let p = put_digit(text, p, n, 10);
    text[p] = (48 + n % 10) as u8;
    p + 1
}

// What stands before the last four digits of a number below a million: two digits, one, or none for 0.
fn put_front(text: &mut [u8], at: usize, n: u32) -> usize
    requires { (n < 100) × (at + length (front_of n) ≤ length text.old) }
    ensures { Wrote text.old text.new at result (front_of n) }
{
    if 10 <= n {
        text[at] = (48 + n / 10) as u8;
        text[at + 1] = (48 + n % 10) as u8;
        return at + 2;
    }
    if 1 <= n {
        text[at] = (48 + n) as u8;
        return at + 1;
    }
    at
}

// Four digits of a fraction of 2 to the 32nd. Ten times a fraction of 2w is five times it as one of w, so each digit is a sum and a shift.
fn put_four(text: &mut [u8], at: usize, part: u64) -> usize
    requires { (part < 4294967296) × (at + 4 ≤ length text.old) }
    ensures { Wrote text.old text.new at result (four_of part) }
{
    let a = part * 5;
    text[at] = (48 + a / 2147483648) as u8;
    let b = a % 2147483648 * 5;
    text[at + 1] = (48 + b / 1073741824) as u8;
    let c = b % 1073741824 * 5;
    text[at + 2] = (48 + c / 536870912) as u8;
    let d = c % 536870912 * 5;
    text[at + 3] = (48 + d / 268435456) as u8;
    at + 4
}

// Four to six digits: the number over 10,000 as a binary fraction, 429,497 being 2 to the 32nd over 10,000, rounded up.
fn put_scaled(text: &mut [u8], at: usize, n: u32) -> usize
    requires { (1000 ≤ n) × (n < 1000000) × (at + length (decimal n) ≤ length text.old) }
    ensures { Wrote text.old text.new at result (decimal n) }
{
    let scaled = n as u64 * 429497;
    let p = put_front(text, at, (scaled / 4294967296) as u32);
    put_four(text, p, scaled % 4294967296)
}

// Nearly all lines of a long trace have a number of four to six digits.
fn put_decimal(text: &mut [u8], at: usize, n: u32) -> usize
    requires { at + length (decimal n) ≤ length text.old }
    ensures { Wrote text.old text.new at result (decimal n) }
{
    if matches!(n, 1000..=999999) {
        return put_scaled(text, at, n);
    }
    let p = put_upper(text, at, n);
    put_lower(text, p, n)
}

fn letter_of(kind: Kind) -> u8
    ensures { result ≡ letter kind }
{
    match kind {
        Kind::Opcode => b'O',
        Kind::Program => b'P',
        Kind::Data => b'D',
        Kind::Invalid => b'I',
    }
}

fn direction_of(write: bool) -> u8
    ensures { result ≡ direction write }
{
    if write { b'W' } else { b'R' }
}

// Kind and direction, with the tabs around them.
fn put_marks(text: &mut [u8], at: usize, kind: u8, dir: u8) -> usize
    requires { at + 5 ≤ length text.old }
    ensures { Wrote text.old text.new at result (9 ∷ kind ∷ 9 ∷ dir ∷ 9 ∷ []) }
{
    text[at] = b'\t';
    text[at + 1] = kind;
    text[at + 2] = b'\t';
    text[at + 3] = dir;
    text[at + 4] = b'\t';
    at + 5
}

// By a match, which becomes a table: a test for each of a line's eight digits costs more.
#[tactic(auto, unfolding(crate::specs::Text::hex_digit))]
fn hex_digit(n: u8) -> u8
    requires { n < 16 }
    ensures { result ≡ hex_digit n }
{
    match n {
        0 => b'0',
        1 => b'1',
        2 => b'2',
        3 => b'3',
        4 => b'4',
        5 => b'5',
        6 => b'6',
        7 => b'7',
        8 => b'8',
        9 => b'9',
        10 => b'A',
        11 => b'B',
        12 => b'C',
        13 => b'D',
        14 => b'E',
        _ => b'F',
    }
}

// The upper-case hex digit of a number's lowest four bits.
pub fn digit(n: u8) -> u8
    ensures { result ≡ hex_digit (n % 16) }
{
    hex_digit(n % 16)
}

// The two hex digits of a byte, the high one first.
#[tactic(auto, unfolding(crate::specs::Text::hex2))]
pub fn two_digits(byte: u8) -> [u8; 2]
    ensures { result ≡ hex2 byte }
{
    [hex_digit(byte / 16), hex_digit(byte % 16)]
}

// The four of a word.
#[tactic(auto, unfolding(crate::specs::Text::hex2))]
pub fn four_digits(word: u16) -> [u8; 4]
    ensures { result ≡ hex2 (word / 256) ++ hex2 (word % 256) }
{
    let [a, b] = two_digits((word / 256) as u8);
    let [c, d] = two_digits((word % 256) as u8);
    [a, b, c, d]
}

// Two hex digits of a byte in a word, the first one low.
pub fn hex_pair(byte: u8) -> u16
    ensures { result ≡ hex_digit (byte / 16) + 256 * hex_digit (byte % 16) }
{
    (hex_digit(byte / 16) as u16) + 256 * (hex_digit(byte % 16) as u16)
}

fn put_hex2(text: &mut [u8], at: usize, byte: u8) -> usize
    requires { at + 2 ≤ length text.old }
    ensures { Wrote text.old text.new at result (hex2 byte) }
{
    let high = hex_digit(byte / 16);
    let low = hex_digit(byte % 16);
    text[at] = high;
    text[at + 1] = low;
    at + 2
}

fn put_hex6(text: &mut [u8], at: usize, addr: u32) -> usize
    requires { at + 6 ≤ length text.old }
    ensures { Wrote text.old text.new at result (hex6 addr) }
{
    let high = put_hex2(text, at, (addr / 65536 % 256) as u8);
    let low = put_hex2(text, high, (addr / 256 % 256) as u8);
    put_hex2(text, low, (addr % 256) as u8)
}

// The byte, after its tab, and the line's end.
#[tactic(auto, unfolding(crate::specs::Text::hex2))]
fn put_end(text: &mut [u8], at: usize, byte: u8) -> usize
    requires { at + 4 ≤ length text.old }
    ensures { Wrote text.old text.new at result ((9 ∷ []) ++ (hex2 byte ++ (10 ∷ []))) }
{
    text[at] = b'\t';
    let end = put_hex2(text, at + 1, byte);
    text[end] = b'\n';
    end + 1
}

// A line that has room.
fn write_line(text: &mut [u8], at: usize, n: u32, line: Request) -> usize
    requires { at + length (line_text n line) ≤ length text.old }
    ensures { Wrote text.old text.new at result (line_text n line) }
{
    let Request {
        write,
        kind,
        addr,
        byte,
    } = line;
    let marks = put_decimal(text, at, n);
    let place = put_marks(text, marks, letter_of(kind), direction_of(write));
    let tab = put_hex6(text, place, addr);
    put_end(text, tab, byte)
}

// Whether the line of cycle n has room at a place: 25 bytes are enough for any, so that its width is seldom asked.
fn line_has_room(len: usize, at: usize, n: u32) -> bool
    ensures { result ≡ leb (at + (15 + length (decimal n))) len }
{
    if has_room(len, at, 25) {
        return true;
    }
    has_room(len, at, 15 + width(n))
}

// The line of cycle n at a place of the text, and the place after it; without room the text stays, and the place is `at`.
pub fn put_line(text: &mut [u8], at: usize, n: u32, line: Request) -> usize
    ensures { Put text.old text.new at result (line_text n line) }
{
    if line_has_room(text.len(), at, n) {
        return write_line(text, at, n, line);
    }
    at
}
