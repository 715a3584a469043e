// A packed record as its sixteen words, one space between them.
ghost use Rattle.std.specs.Prelude.{◌≡◌, ◌<◌};
ghost use Rattle.packed.specs.Packed.{placed};
ghost use Rattle.slip.specs.Slip.{four, line_of};
ghost use Rattle.slip.specs.Steps.{with_registers, with_pointers, with_status, with_held, with_scratch};

use packed::bytes::put;
use trace::{digit, four_digits, two_digits};
use words::join;

// The word that stands at a place of the record.
fn put_word(text: &mut [u8; 61], at: usize, bytes: &[u8; 32], from: usize)
    requires { from < 31 }
    ensures { text.new ≡ placed text.old at (four bytes.now from) }
{
    put(text, at, &four_digits(join(bytes[from], bytes[from + 1])));
}

// A, X and Y.
#[tactic(auto, unfolding(crate::specs::Steps::with_registers))]
fn put_registers(text: &mut [u8; 61], bytes: &[u8; 32])
    ensures { text.new ≡ with_registers bytes.now text.old }
{
    put_word(text, 0, bytes, 4);
    put_word(text, 5, bytes, 6);
    put_word(text, 10, bytes, 8);
}

// S, D and PC.
#[tactic(auto, unfolding(crate::specs::Steps::with_pointers))]
fn put_pointers(text: &mut [u8; 61], bytes: &[u8; 32])
    ensures { text.new ≡ with_pointers bytes.now text.old }
{
    put_word(text, 15, bytes, 10);
    put_word(text, 20, bytes, 12);
    put_word(text, 25, bytes, 14);
}

// PBR, DBR, P and E.
#[tactic(auto, unfolding(crate::specs::Steps::with_status))]
fn put_status(text: &mut [u8; 61], bytes: &[u8; 32])
    ensures { text.new ≡ with_status bytes.now text.old }
{
    put(text, 30, &two_digits(bytes[16]));
    put(text, 33, &two_digits(bytes[17]));
    put(text, 36, &two_digits(bytes[18]));
    put(text, 39, &[digit(bytes[19])]);
}

// Whether an opcode is held, the opcode, its cycle.
#[tactic(auto, unfolding(crate::specs::Steps::with_held))]
fn put_held(text: &mut [u8; 61], bytes: &[u8; 32])
    ensures { text.new ≡ with_held bytes.now text.old }
{
    put(text, 41, &[digit(bytes[1])]);
    put(text, 43, &two_digits(bytes[2]));
    put(text, 46, &two_digits(bytes[3]));
}

// The scratch words: address, data, bank.
#[tactic(auto, unfolding(crate::specs::Steps::with_scratch))]
fn put_scratch(text: &mut [u8; 61], bytes: &[u8; 32])
    ensures { text.new ≡ with_scratch bytes.now text.old }
{
    put_word(text, 49, bytes, 20);
    put_word(text, 54, bytes, 22);
    put(text, 59, &two_digits(bytes[24]));
}

// The words of a packed record. Bytes that are none have words too: of what is held and of E the lowest digit is shown.
pub fn line(bytes: &[u8; 32]) -> [u8; 61]
    ensures { result ≡ line_of bytes.now }
{
    let mut text = [b' '; 61];
    put_registers(&mut text, bytes);
    put_pointers(&mut text, bytes);
    put_status(&mut text, bytes);
    put_held(&mut text, bytes);
    put_scratch(&mut text, bytes);
    text
}
