// The form of a line: where its fields stand, or which one isn't as the format says.
//
//     id src  A X Y S D PC PBR DBR P E  cycles  A X Y S D PC PBR DBR P E
//
// The ten words of a state take 40 characters; a cycle takes 10, or 9 where it is left open.
ghost use Rattle.std.specs.Prelude.{◌≡◌};
ghost use Rattle.lines.specs.Form.{belongs, run_end, run_of, mode_end, id_end, kinds_end, source_end, is_spaced, are_words, is_parted, are_bytes, is_bit, is_state, is_kind, is_open, is_cycle, cycle_end, span_of, cycles_read, read_of};

use crate::text::{byte_at, is_at, is_byte, is_word, past, same};
use crate::types::{Fault, Places, Span};
use words::{both, either};

// Whether a character is one from `low` to `high`.
#[tactic(auto, unfolding(crate::specs::Form::belongs))]
fn belongs(low: u8, high: u8, b: u8) -> bool
    ensures { result ≡ belongs low high b }
{
    both(low <= b, b <= high)
}

// Where a run of such characters ends. No line is longer than the steps that are counted.
fn run_end(text: &[u8], at: usize, low: u8, high: u8) -> usize
    ensures { result ≡ run_end 1024 text.now at low high }
{
    let mut end = at;
    for _step in 0..1024usize {
        if !belongs(low, high, byte_at(text, end)) {
            return end;
        }
        end = past(end, 1);
    }
    end
}

// From here on where a field ends, if it is as it should be. At least one such character is.
#[tactic(auto, unfolding(crate::specs::Form::run_of))]
fn run_of(text: &[u8], at: usize, low: u8, high: u8) -> Option<usize>
    ensures { result ≡ run_of text.now at low high }
{
    let end = run_end(text, at, low, high);
    if end == at { None } else { Some(end) }
}

// E, or the two widths, capital where they are 8 bits.
#[tactic(auto, unfolding(crate::specs::Form::mode_end))]
fn mode_end(text: &[u8], at: usize) -> Option<usize>
    ensures { result ≡ mode_end text.now at }
{
    if is_at(text, at, b'E') {
        return Some(past(at, 1));
    }
    let next = past(at, 1);
    let m = either(is_at(text, at, b'M'), is_at(text, at, b'm'));
    let x = either(is_at(text, next, b'X'), is_at(text, next, b'x'));
    if both(m, x) { Some(past(at, 2)) } else { None }
}

// opcode.mode.number
#[tactic(auto, unfolding(crate::specs::Form::id_end))]
fn id_end(text: &[u8]) -> Option<usize>
    ensures { result ≡ id_end text.now }
{
    if !both(is_byte(text, 0), is_at(text, 2, b'.')) {
        return None;
    }
    let mode = mode_end(text, 3)?;
    if is_at(text, mode, b'.') {
        run_of(text, past(mode, 1), b'0', b'9')
    } else {
        None
    }
}

// Those who name kinds, or `-`.
#[tactic(auto, unfolding(crate::specs::Form::kinds_end))]
fn kinds_end(text: &[u8], at: usize) -> Option<usize>
    ensures { result ≡ kinds_end text.now at }
{
    if is_at(text, at, b'-') {
        Some(past(at, 1))
    } else {
        run_of(text, at, b'a', b'z')
    }
}

// Those who agree, a slash, and those of them who name kinds.
#[tactic(auto, unfolding(crate::specs::Form::source_end))]
fn source_end(text: &[u8], at: usize) -> Option<usize>
    ensures { result ≡ source_end text.now at }
{
    let slash = run_of(text, at, b'a', b'z')?;
    if is_at(text, slash, b'/') {
        kinds_end(text, past(slash, 1))
    } else {
        None
    }
}

#[tactic(auto, unfolding(crate::specs::Form::is_spaced))]
fn is_spaced(text: &[u8], at: usize) -> bool
    ensures { result ≡ is_spaced text.now at }
{
    both(is_word(text, at), is_at(text, past(at, 4), b' '))
}

#[tactic(auto, unfolding(crate::specs::Form::are_words))]
fn are_words(text: &[u8], at: usize) -> bool
    ensures { result ≡ are_words text.now at }
{
    let two = both(is_spaced(text, at), is_spaced(text, past(at, 5)));
    both(two, is_spaced(text, past(at, 10)))
}

#[tactic(auto, unfolding(crate::specs::Form::is_parted))]
fn is_parted(text: &[u8], at: usize) -> bool
    ensures { result ≡ is_parted text.now at }
{
    both(is_byte(text, at), is_at(text, past(at, 2), b' '))
}

#[tactic(auto, unfolding(crate::specs::Form::are_bytes))]
fn are_bytes(text: &[u8], at: usize) -> bool
    ensures { result ≡ are_bytes text.now at }
{
    let two = both(is_parted(text, at), is_parted(text, past(at, 3)));
    both(two, is_parted(text, past(at, 6)))
}

#[tactic(auto, unfolding(crate::specs::Form::is_bit))]
fn is_bit(text: &[u8], at: usize) -> bool
    ensures { result ≡ is_bit text.now at }
{
    either(is_at(text, at, b'0'), is_at(text, at, b'1'))
}

// A X Y S D PC, PBR DBR P, E.
#[tactic(auto, unfolding(crate::specs::Form::is_state))]
fn is_state(text: &[u8], at: usize) -> bool
    ensures { result ≡ is_state text.now at }
{
    let words = both(are_words(text, at), are_words(text, past(at, 15)));
    let rest = both(are_bytes(text, past(at, 30)), is_bit(text, past(at, 39)));
    both(words, rest)
}

#[tactic(auto, unfolding(crate::specs::Form::is_kind))]
fn is_kind(b: u8) -> bool
    ensures { result ≡ is_kind b }
{
    let code = either(b == b'O', b == b'P');
    let other = either(b == b'D', b == b'I');
    either(either(code, other), b == b'-')
}

// Whether an internal cycle whose address is left open stands at a place.
#[tactic(auto, unfolding(crate::specs::Form::is_open))]
pub fn is_open(text: &[u8], at: usize) -> bool
    ensures { result ≡ is_open text.now at }
{
    same(text, at, b"I------..")
}

// Kind, direction, address and byte, with no blanks.
#[tactic(auto, unfolding(crate::specs::Form::is_cycle))]
fn is_cycle(text: &[u8], at: usize) -> bool
    ensures { result ≡ is_cycle text.now at }
{
    let way = past(at, 1);
    let kind = is_kind(byte_at(text, at));
    let marks = both(kind, either(is_at(text, way, b'R'), is_at(text, way, b'W')));
    let figures = both(is_word(text, past(at, 2)), is_word(text, past(at, 6)));
    both(marks, figures)
}

// Where the cycle at a place ends, if one stands there.
#[tactic(auto, unfolding(crate::specs::Form::cycle_end))]
pub fn cycle_end(text: &[u8], at: usize) -> Option<usize>
    ensures { result ≡ cycle_end text.now at }
{
    if is_open(text, at) {
        return Some(past(at, 9));
    }
    if is_cycle(text, at) {
        Some(past(at, 10))
    } else {
        None
    }
}

// No line has room for 128 cycles.
fn span_of(text: &[u8], at: usize) -> Option<Span>
    ensures { result ≡ span_of 128 text.now at 0 }
{
    let mut from = at;
    for count in 0..128 {
        let end = cycle_end(text, from)?;
        if !is_at(text, end, b';') {
            return Some(Span {
                end,
                count: count + 1,
            });
        }
        from = past(end, 1);
    }
    None
}

// From the cycles on.
#[tactic(auto, unfolding(crate::specs::Form::after_read))]
fn read_cycles(text: &[u8], id: usize, start: usize) -> Result<Places, Fault>
    ensures { result ≡ cycles_read text.now id start }
{
    let cycles = past(start, 41);
    let Span { end, count } = span_of(text, cycles).unwrap_or(Span { end: 0, count: 0 });
    if !is_at(text, end, b' ') {
        return Err(Fault::Cycles);
    }
    let after = past(end, 1);
    if !is_state(text, after) {
        return Err(Fault::After);
    }
    if past(after, 40) != text.len() {
        return Err(Fault::Extra);
    }
    Ok(Places {
        id,
        start,
        cycles,
        count,
        after,
    })
}

// The places of a line's fields, or the first that isn't as it should be. `longest` characters are allowed.
// A field that ends nowhere is read on from 0: a line that begins with a blank is read as one without an id, as `read_of` has it.
#[tactic(auto, unfolding(crate::specs::Form::read_of))]
pub fn read(text: &[u8], longest: usize) -> Result<Places, Fault>
    ensures { result ≡ read_of text.now longest }
{
    if longest < text.len() {
        return Err(Fault::Length);
    }
    let id = id_end(text).unwrap_or(0);
    if !is_at(text, id, b' ') {
        return Err(Fault::Id);
    }
    let source = source_end(text, past(id, 1)).unwrap_or(0);
    if !is_at(text, source, b' ') {
        return Err(Fault::Source);
    }
    let start = past(source, 1);
    if !both(is_state(text, start), is_at(text, past(start, 40), b' ')) {
        return Err(Fault::Start);
    }
    read_cycles(text, id, start)
}
