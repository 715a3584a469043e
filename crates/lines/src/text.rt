// A line's characters: every function answers for any place, past the line's end too. A line and a place stay two parameters, since a function asks
// at several places of one line: a cursor would be made anew for each, and be no plainer.
ghost use Rattle.std.specs.Prelude.{◌≡◌};
ghost use Rattle.lines.specs.Text.{past_of, byte_at, is_at, same_at, digit_of, is_byte, is_word, byte_of, word_of};

use words::both;

// The place n characters on; past the last number of 64 bits comes 0.
#[tactic(auto, unfolding(crate::specs::Text::past_of))]
pub fn past(at: usize, n: usize) -> usize
    ensures { result ≡ past_of at n }
{
    at.wrapping_add(n)
}

// The character at a place; past the end 0, which no field has.
#[tactic(auto, unfolding(crate::specs::Text::byte_at))]
pub fn byte_at(text: &[u8], at: usize) -> u8
    ensures { result ≡ byte_at text.now at }
{
    text.get(at).copied().unwrap_or(0)
}

// Whether a character stands at a place.
#[tactic(auto, unfolding(crate::specs::Text::is_at))]
pub fn is_at(text: &[u8], at: usize, b: u8) -> bool
    ensures { result ≡ is_at text.now at b }
{
    byte_at(text, at) == b
}

// Whether `part` stands at a place of the text.
pub fn same(text: &[u8], at: usize, part: &[u8]) -> bool
    ensures { result ≡ same_at text.now at part.now }
{
    for (i, b) in part.iter().enumerate() {
        if !is_at(text, past(at, i), *b) {
            return false;
        }
    }
    true
}

// An upper-case hex digit's value.
#[tactic(auto, unfolding(crate::specs::Text::digit_of))]
fn digit_of(b: u8) -> Option<u8>
    ensures { result ≡ digit_of b }
{
    match b {
        b'0'..=b'9' => Some(b - 48),
        b'A'..=b'F' => Some(b - 55),
        _ => None,
    }
}

// Whether two hex digits stand at a place.
#[tactic(auto, unfolding(crate::specs::Text::is_byte))]
pub fn is_byte(text: &[u8], at: usize) -> bool
    ensures { result ≡ is_byte text.now at }
{
    let high = digit_of(byte_at(text, at));
    let low = digit_of(byte_at(text, past(at, 1)));
    both(high.is_some(), low.is_some())
}

// Whether four do.
#[tactic(auto, unfolding(crate::specs::Text::is_word))]
pub fn is_word(text: &[u8], at: usize) -> bool
    ensures { result ≡ is_word text.now at }
{
    both(is_byte(text, at), is_byte(text, past(at, 2)))
}

// The byte of two hex digits; another character counts as 0.
#[tactic(auto, using(crate::proofs::Digits::digit_small), unfolding(crate::specs::Text::byte_of))]
pub fn byte_of(text: &[u8], at: usize) -> u8
    ensures { result ≡ byte_of text.now at }
{
    let high = digit_of(byte_at(text, at)).unwrap_or(0);
    let low = digit_of(byte_at(text, past(at, 1))).unwrap_or(0);
    high * 16 + low
}

// The word of four.
#[tactic(auto, unfolding(crate::specs::Text::word_of))]
pub fn word_of(text: &[u8], at: usize) -> u16
    ensures { result ≡ word_of text.now at }
{
    words::join(byte_of(text, past(at, 2)), byte_of(text, at))
}
