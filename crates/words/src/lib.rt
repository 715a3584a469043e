// Numbers of 8, 16 and 24 bits. The crate's `ByteRef`, which borrows half a word, is arithmetic on the word here.
#![tactic(auto)]

ghost use Rattle.std.specs.Prelude.{◌≡◌, ◌≤◌, ◌&&◌, ◌||◌};
ghost use Rattle.words.specs.Words.{pick, implied, bit, low_of, high_of, word, low_set, swapped, inc, dec, sum16, signed, displaced, at, sum24, same_page, page_one, index};

// `ByteRef::Low(w).get()`.
pub fn low(w: u16) -> u8
    ensures { result ≡ low_of w }
{
    (w % 256) as u8
}

// `ByteRef::High(w).get()`.
pub fn high(w: u16) -> u8
    ensures { result ≡ high_of w }
{
    (w / 256) as u8
}

// `ByteRef::Low(w).set(b)`: the word with another low byte.
#[tactic(auto, unfolding(crate::specs::Words::low_set))]
pub fn with_low(w: u16, b: u8) -> u16
    ensures { result ≡ low_set w b }
{
    w / 256 * 256 + (b as u16)
}

// `ByteRef::High(w).set(b)`: the word with another high byte.
#[tactic(auto, unfolding(crate::specs::Words::word))]
pub fn with_high(w: u16, b: u8) -> u16
    ensures { result ≡ word w b }
{
    w % 256 + (b as u16) * 256
}

// The word of a low and a high byte.
pub fn join(l: u8, h: u8) -> u16
    ensures { result ≡ word l h }
{
    with_high(l as u16, h)
}

// The word with its halves changed over.
#[tactic(auto, unfolding(crate::specs::Words::swapped))]
pub fn swap(w: u16) -> u16
    ensures { result ≡ swapped w }
{
    w / 256 + w % 256 * 256
}

// The next word, 0000 after FFFF.
#[tactic(auto, unfolding(crate::specs::Words::inc))]
pub fn up(w: u16) -> u16
    ensures { result ≡ inc w }
{
    w.wrapping_add(1)
}

// The word before, FFFF before 0000.
#[tactic(auto, unfolding(crate::specs::Words::dec))]
pub fn down(w: u16) -> u16
    ensures { result ≡ dec w }
{
    w.wrapping_sub(1)
}

// A sum that wraps: an index, or a displacement of a word, whatever its sign.
#[tactic(auto, unfolding(crate::specs::Words::sum16))]
pub fn add(w: u16, by: u16) -> u16
    ensures { result ≡ sum16 w by }
{
    w.wrapping_add(by)
}

// A byte with its sign, as a word.
#[tactic(auto, unfolding(crate::specs::Words::signed))]
pub fn extend(b: u8) -> u16
    ensures { result ≡ signed b }
{
    if b < 128 {
        b as u16
    } else {
        (b as u16) + 65280
    }
}

// `wrapping_add_signed` of a byte: where a branch goes.
#[tactic(auto, unfolding(crate::specs::Words::displaced))]
pub fn add_signed(w: u16, b: u8) -> u16
    ensures { result ≡ displaced w b }
{
    add(w, extend(b))
}

// The 24-bit address of a word in a bank.
#[tactic(auto, unfolding(crate::specs::Words::at))]
pub fn address(bank: u8, w: u16) -> u32
    ensures { result ≡ at bank w }
{
    (bank as u32) * 65536 + (w as u32)
}

// A 24-bit sum, 000000 after FFFFFF.
#[tactic(auto, unfolding(crate::specs::Words::sum24))]
pub fn add24(addr: u32, by: u32) -> u32
    ensures { result ≡ sum24 addr by }
{
    addr.wrapping_add(by) % 16777216
}

// Whether two words lie on one page.
#[tactic(auto, unfolding(crate::specs::Words::same_page))]
pub fn same_page(p: u16, q: u16) -> bool
    ensures { result ≡ same_page p q }
{
    p / 256 == q / 256
}

// S as emulation wants it: its high byte 1.
#[tactic(auto, unfolding(crate::specs::Words::page_one))]
pub fn page_one(emulation: bool, s: u16) -> u16
    ensures { result ≡ page_one emulation s }
{
    choose(emulation, 256 + s % 256, s)
}

// X or Y as the index flag wants it: its high byte 0 where that is set.
#[tactic(auto, unfolding(crate::specs::Words::index))]
pub fn index_at(narrow: bool, x: u16) -> u16
    ensures { result ≡ index narrow x }
{
    choose(narrow, x % 256, x)
}

// Truth values. A call keeps the code straight where `&&` would branch.
pub fn both(a: bool, b: bool) -> bool
    ensures { result ≡ (a && b) }
{
    if a { b } else { false }
}

pub fn either(a: bool, b: bool) -> bool
    ensures { result ≡ (a || b) }
{
    if a { true } else { b }
}

pub fn implies(a: bool, b: bool) -> bool
    ensures { result ≡ implied a b }
{
    if a { b } else { true }
}

// One of two values, by a test.
pub fn choose<T: Copy>(t: bool, a: T, b: T) -> T
    ensures { result ≡ pick t a b }
{
    if t { a } else { b }
}

// A truth value as a bit.
pub fn one_if(t: bool) -> u8
    ensures value { result ≡ bit t }
    ensures small { result ≤ 1 }
{
    u8::from(t)
}
