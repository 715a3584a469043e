// What is asked, and how a run ended, each in one number.
ghost use Rattle.std.specs.Prelude.{◌≡◌, ◌≤◌};
ghost use Rattle.cpu.specs.Record.{number_in};
ghost use Rattle.numbers.specs.Numbers.{asked_bits, run_number};

use cpu::record::number_in;
use cpu::types::{Refusal, Request};
use words::one_if;

// What is asked, or why nothing is, in one number.
pub fn asked_number(a: Result<Request, Refusal>) -> u64
    ensures { result ≡ asked_bits a }
{
    match a {
        Ok(q) => {
            let place = (q.addr as u64) + u64::from(q.byte) * 16_777_216;
            place
                + u64::from(u8::from(q.kind)) * 4_294_967_296
                + u64::from(one_if(q.write)) * 1_099_511_627_776
        }
        Err(n) => u64::from(u8::from(n)) * 281_474_976_710_656,
    }
}

// The cycles of a run and its refusal's number, or 0, in one number.
pub fn run_number(refusal: u8, cycles: u32) -> u64
    ensures { result ≡ run_number refusal cycles }
{
    (cycles as u64) + u64::from(refusal) * 4_294_967_296
}

// The same by the refusal, if there was one.
pub fn ended_number(refusal: Option<Refusal>, cycles: u32) -> u64
    ensures { result ≡ run_number (number_in refusal) cycles }
{
    run_number(number_in(refusal), cycles)
}
