// Numbers as they are typed: the whole of a lent text, nothing before or after the digits.
ghost use Rattle.std.specs.Prelude.{◌≡◌, true, false};
ghost use Rattle.slip.specs.Slip.{value_of, base_of, longer, number_from, number_of};

// A hex digit's value, in either case.
#[tactic(auto, unfolding(crate::specs::Slip::value_of))]
fn value(b: u8) -> Option<u32>
    ensures { result ≡ value_of b }
{
    match b {
        b'0'..=b'9' => Some(b as u32 - 48),
        b'A'..=b'F' => Some(b as u32 - 55),
        b'a'..=b'f' => Some(b as u32 - 87),
        _ => None,
    }
}

fn base(hex: bool) -> u32
    ensures { result ≡ base_of hex }
{
    if hex { 16 } else { 10 }
}

// The number with one more digit after it, if that is one of the base and the number isn't too large then.
#[tactic(auto, unfolding(crate::specs::Slip::longer))]
fn longer(n: u32, b: u8, hex: bool) -> Option<u32>
    ensures { result ≡ longer hex n b }
{
    let d = value(b)?;
    if base(hex) <= d {
        return None;
    }
    n.checked_mul(base(hex))?.checked_add(d)
}

// The number that the digits of a text make up.
fn number_from(text: &[u8], hex: bool) -> Option<u32>
    ensures { result ≡ number_from hex 0 text.now }
{
    let mut n = 0;
    for b in text {
        n = longer(n, *b, hex)?;
    }
    Some(n)
}

fn number(text: &[u8], hex: bool, most: usize) -> Option<u32>
    ensures { result ≡ number_of hex most text.now }
{
    if text.is_empty() || most < text.len() {
        return None;
    }
    number_from(text, hex)
}

// A word of 1 to `most` hex digits.
pub fn hex(text: &[u8], most: usize) -> Option<u32>
    ensures { result ≡ number_of true most text.now }
{
    number(text, true, most)
}

// A decimal number of 1 to 10 digits.
pub fn decimal(text: &[u8]) -> Option<u32>
    ensures { result ≡ number_of false 10 text.now }
{
    number(text, false, 10)
}
