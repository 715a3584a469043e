// A typed word, taken into a packed record.
ghost use Rattle.std.specs.Prelude.{◌≡◌};
ghost use Rattle.pails.specs.Pails.{fits_at, word_taken};

use slip::number::hex;
use slip::places::{digits, lay};

// E and held are truth values.
#[tactic(auto, unfolding(crate::specs::Pails::fits_at))]
fn fits(k: usize, n: u32) -> bool
    ensures { result ≡ fits_at k n }
{
    digits(k) != 1 || n < 2
}

// Word k of a record, laid into its bytes; none, and the bytes as they were, where the text is no such word.
#[tactic(auto, unfolding(crate::specs::Pails::word_taken))]
pub fn take(k: usize, text: &[u8], bytes: &mut [u8]) -> Option<()>
    ensures { (result ≡ (word_taken k text.now bytes.old).good)
        × (bytes.new ≡ (word_taken k text.now bytes.old).bytes) }
{
    let n = hex(text, digits(k))?;
    if !fits(k, n) {
        return None;
    }
    lay(bytes, k, n);
    Some(())
}
