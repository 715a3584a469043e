// Where a word of the line stands in a packed record, and how long it is.
ghost use Rattle.std.specs.Prelude.{◌≡◌};
ghost use Rattle.slip.specs.Slip.{digits_of, place_of, laid};

use packed::bytes::put;

// How many hex digits word k has; there is no word past 15.
#[tactic(auto, unfolding(crate::specs::Slip::digits_of))]
pub fn digits(k: usize) -> usize
    ensures { result ≡ digits_of k }
{
    match k {
        0..=5 | 13 | 14 => 4,
        6..=8 | 11 | 12 | 15 => 2,
        9 | 10 => 1,
        _ => 0,
    }
}

// Where word k begins in the 32 bytes; past 15 beyond them.
#[tactic(auto, unfolding(crate::specs::Slip::place_of))]
fn place(k: usize) -> usize
    ensures { result ≡ place_of k }
{
    match k {
        0..=5 => 4 + 2 * k,
        6..=9 => 10 + k,
        10..=12 => k - 9,
        13..=15 => 2 * k - 6,
        _ => 32,
    }
}

// Word k at its place in a packed record. Where the bytes have no room for it nothing happens.
#[tactic(auto, unfolding(crate::specs::Slip::laid))]
pub fn lay(bytes: &mut [u8], k: usize, n: u32)
    ensures { bytes.new ≡ laid bytes.old k n }
{
    let at = place(k);
    let [low, high, ..] = n.to_le_bytes();
    if digits(k) == 4 {
        put(bytes, at, &[low, high]);
    } else {
        put(bytes, at, &[low]);
    }
}
