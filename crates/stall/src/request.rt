// A request by glavorint_session_request's number, and a session by its bytes: include/glavorint.h has both.
ghost use Rattle.std.specs.Prelude.{◌≡◌, ◌/◌, ◌%◌, ◌==◌};
ghost use Rattle.packed.specs.Packed.{placed};
ghost use Rattle.pails.specs.Pails.{refusal_of};
ghost use Rattle.stall.specs.Stall.{digit_of, letter_of, direction_of, text_of, count_of};

use packed::bytes::put;
use pails::ran::Refusal;

// What a session asks, in one number.
#[derive(Clone, Copy, Debug, PartialEq, Eq)]
pub struct Request(pub u64);

impl Request {
    #[tactic(auto, unfolding(crate::specs::Stall::letter_of))]
    fn letter(self) -> u8
        ensures { result ≡ letter_of self.0 }
    {
        match self.0 / 4_294_967_296 % 256 {
            0 => b'O',
            1 => b'P',
            2 => b'D',
            _ => b'I',
        }
    }

    // Whether it is a write.
    pub fn writes(self) -> bool
        ensures { result ≡ (self.0 / 1099511627776 % 2 == 1) }
    {
        self.0 / 1_099_511_627_776 % 2 == 1
    }

    #[tactic(auto, unfolding(crate::specs::Stall::direction_of))]
    fn direction(self) -> u8
        ensures { result ≡ direction_of self.0 }
    {
        if self.writes() { b'W' } else { b'R' }
    }

    pub fn refusal(self) -> Option<Refusal>
        ensures { result ≡ refusal_of (self.0 / 281474976710656 % 256) }
    {
        Refusal::of((self.0 / 281_474_976_710_656 % 256) as u8)
    }

    // The fields of a trace's line after the cycle.
    #[tactic(auto, unfolding(crate::specs::Stall::text_of))]
    pub fn text(self) -> [u8; 15]
        ensures { result ≡ text_of self.0 }
    {
        let n = self.0;
        [
            b'\t',
            self.letter(),
            b'\t',
            self.direction(),
            b'\t',
            digit(n / 1_048_576),
            digit(n / 65_536),
            digit(n / 4096),
            digit(n / 256),
            digit(n / 16),
            digit(n),
            b'\t',
            digit(n / 268_435_456),
            digit(n / 16_777_216),
            b'\n',
        ]
    }
}

// Of the lowest four bits.
#[tactic(auto, unfolding(crate::specs::Stall::digit_of))]
fn digit(n: u64) -> u8
    ensures { result ≡ digit_of n }
{
    trace::digit((n % 16) as u8)
}

// A packed record at the front of a session's bytes.
pub fn lay_front(session: &mut [u8; 40], rec: &[u8; 32])
    ensures { session.new ≡ placed session.old 0 rec.now }
{
    put(session, 0, rec);
}

// How many cycles a session has completed.
#[tactic(auto, unfolding(crate::specs::Stall::count_of))]
pub fn count(session: &[u8; 40]) -> u64
    ensures { result ≡ count_of session.now }
{
    u64::from_le_bytes([
        session[32],
        session[33],
        session[34],
        session[35],
        session[36],
        session[37],
        session[38],
        session[39],
    ])
}
