// What a typed line means.
ghost use Rattle.std.specs.Prelude.{◌≡◌};
ghost use Rattle.std.specs.Option.{option_copied};
ghost use Rattle.stall.specs.Stall.{byte_meant, meant_of};

use slip::number::hex;

// A byte that answers, one of two words, or nothing that is known.
#[derive(Clone, Copy, Debug, PartialEq, Eq)]
pub enum Said {
    Byte(u8),
    Record,
    Quit,
    Other,
}

// Two hex digits.
#[tactic(auto, unfolding(crate::specs::Stall::byte_meant))]
fn byte(pair: &[u8]) -> Said
    ensures { result ≡ byte_meant pair.now }
{
    match hex(pair, 2) {
        Some(n) => Said::Byte((n % 256) as u8),
        None => Said::Other,
    }
}

// A line to a request that writes or reads; the end of the input, where there is none, is as good as `quit`. After a write nothing has to be typed.
pub fn meant(line: Option<&[u8]>, write: bool) -> Said
    ensures { result ≡ meant_of (option_copied line.entry) write }
{
    let Some(line) = line else {
        return Said::Quit;
    };
    if line.len() == 2 {
        return byte(line);
    }
    if line == b"quit".as_slice() {
        return Said::Quit;
    }
    if line == b"record".as_slice() {
        return Said::Record;
    }
    if write && line.is_empty() {
        Said::Byte(0)
    } else {
        Said::Other
    }
}
