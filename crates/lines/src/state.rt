// A state's ten words: the record that they give, and the words of a record.
ghost use Rattle.std.specs.Prelude.{◌≡◌};
ghost use Rattle.lines.specs.State.{record_of, words_of};

use crate::text::{byte_of, is_at, past, word_of};
use cpu::types::Record;
use packed::bytes::{put, start};
use trace::{digit, four_digits, two_digits};
use words::one_if;

// The record of the words at a place of a line, at an instruction's start.
#[tactic(auto, unfolding(crate::specs::State::record_of))]
pub fn record_of(text: &[u8], at: usize) -> Record
    ensures { result ≡ record_of text.now at }
{
    start(
        word_of(text, at),
        word_of(text, past(at, 5)),
        word_of(text, past(at, 10)),
        word_of(text, past(at, 15)),
        word_of(text, past(at, 20)),
        word_of(text, past(at, 25)),
        byte_of(text, past(at, 30)),
        byte_of(text, past(at, 33)),
        byte_of(text, past(at, 36)),
        is_at(text, past(at, 39), b'1'),
    )
}

// The words of a record, as a line has them.
pub fn words_of(r: Record) -> [u8; 40]
    ensures { result ≡ words_of r }
{
    let f = r.flags;
    let mut out = [b' '; 40];
    put(&mut out, 0, &four_digits(r.a));
    put(&mut out, 5, &four_digits(r.x));
    put(&mut out, 10, &four_digits(r.y));
    put(&mut out, 15, &four_digits(r.s));
    put(&mut out, 20, &four_digits(r.d));
    put(&mut out, 25, &four_digits(r.pc));
    put(&mut out, 30, &two_digits(r.pbr));
    put(&mut out, 33, &two_digits(r.dbr));
    put(&mut out, 36, &two_digits(f.as_byte()));
    put(&mut out, 39, &[digit(one_if(f.emulation))]);
    out
}
