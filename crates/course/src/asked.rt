// What a cycle asked, beside what the line has at a place.
ghost use Rattle.std.specs.Prelude.{◌≡◌};
ghost use Rattle.course.specs.Course.{shown_of, request_text, agrees_of};

use cpu::types::Request;
use lines::form::is_open;
use lines::text::{byte_at, is_at, past, same};
use words::{both, either};

// A character of the byte: a write's own; of a read the one that the line answers, `.` where it answers none.
#[tactic(auto, unfolding(crate::specs::Course::shown_of))]
fn shown(text: &[u8], at: usize, place: usize, write: bool, own: u8) -> u8
    ensures { result ≡ shown_of text.now at place write own }
{
    if write {
        return own;
    }
    if is_at(text, past(at, 1), b'R') {
        byte_at(text, place)
    } else {
        b'.'
    }
}

// A request as a line writes it, with the byte that the line at that place answers.
pub fn request_text(text: &[u8], at: usize, q: Request) -> [u8; 10]
    ensures { result ≡ request_text text.now at q }
{
    let mut line = [0u8; 16];
    trace::put_line(&mut line, 0, 1, q);
    let high = shown(text, at, past(at, 8), q.write, line[13]);
    let low = shown(text, at, past(at, 9), q.write, line[14]);
    [
        line[2], line[4], line[6], line[7], line[8], line[9], line[10], line[11], high, low,
    ]
}

// Whether a request is what the line has. Where the line names no kind any will do; a cycle that is left open is an internal one.
#[tactic(auto, unfolding(crate::specs::Course::agrees_with))]
pub fn agrees(text: &[u8], at: usize, q: Request) -> bool
    ensures { result ≡ agrees_of text.now at q }
{
    let asked = request_text(text, at, q);
    let kind = is_at(text, at, asked[0]);
    if is_open(text, at) {
        return kind;
    }
    both(
        either(kind, is_at(text, at, b'-')),
        same(text, past(at, 1), &asked[1..]),
    )
}
