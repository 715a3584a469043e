// One cycle of a packed record: what it asks, and the record after the answered byte. Bytes that are no packed record are refused with 4.
ghost use Rattle.std.specs.Prelude.{◌≡◌};
ghost use Rattle.packed.specs.Packed.{unpacked};
ghost use Rattle.cycle_port.specs.Port.{taken_from, asked_from, request_number, came_from, answer_bytes};

use cpu::types::{Record, Refusal, Request};
use numbers::numbers::asked_number;
use packed::bytes::{pack, put, unpack};
use step::{answer, request};

// The edition of the bytes and bits that these functions take and answer.
pub fn glavorint_edition() -> u32
    ensures { result ≡ 1 }
{
    1
}

// The record that some bytes are, or refusal 4.
fn taken(rec: &[u8]) -> Result<Record, Refusal>
    ensures { result ≡ taken_from (unpacked rec.now) }
{
    unpack(rec).ok_or(Refusal::Malformed)
}

fn asked(rec: &[u8]) -> Result<Request, Refusal>
    ensures { result ≡ asked_from (unpacked rec.now) }
{
    request(taken(rec)?)
}

// What a packed record asks of the bus.
pub fn glavorint_request(rec: &[u8]) -> u64
    ensures { result ≡ request_number rec.now }
{
    asked_number(asked(rec))
}

fn answered(rec: &[u8], byte: u8) -> Result<Record, Refusal>
    ensures { result ≡ came_from (unpacked rec.now) byte }
{
    answer(taken(rec)?, byte)
}

// The record after the answered byte, in place of the one that was lent; a refused one stays.
pub fn glavorint_answer(rec: &mut [u8], byte: u8) -> u8
    ensures { (result ≡ (answer_bytes rec.old byte).number) × (rec.new ≡ (answer_bytes rec.old byte).bytes) }
{
    let a = answered(rec, byte);
    match a {
        Err(n) => u8::from(n),
        Ok(next) => {
            let after = pack(next);
            put(rec, 0, &after);
            0
        }
    }
}
