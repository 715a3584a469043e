// How a run ended, by the numbers that include/glavorint.h hands over.
ghost use Rattle.std.specs.Prelude.{◌≡◌, ◌/◌, ◌%◌};
ghost use Rattle.pails.specs.Pails.{refusal_of, run_of, trace_of, joined_of, sum_of, written_of, spelt_of};

use std::fmt;

// A refusal by its number in document 01. Any byte can stand in what is handed over.
#[derive(Clone, Copy, Debug, PartialEq, Eq)]
pub struct Refusal(pub u8);

impl Refusal {
    // 0 is no refusal.
    pub fn of(number: u8) -> Option<Refusal>
        ensures { result ≡ refusal_of number }
    {
        if number == 0 {
            None
        } else {
            Some(Refusal(number))
        }
    }
}

// Document 01's words for each.
impl fmt::Display for Refusal {
    ghost use Rattle.std.specs.Prelude.{Some};
    ghost use Rattle.pails.specs.Pails.{words_of};

    ghost output = { λ r. Some (words_of r.0) };

    fn fmt<W: fmt::Write>(&self, f: &mut fmt::Formatter<W>) -> fmt::Result {
        match self.0 {
            1 => f.write_str("the memory isn't 65,536 bytes"),
            2 => f.write_str("the budget is above 1,000,000 cycles"),
            3 => f.write_str("the text buffer is too short"),
            4 => f.write_str("the record isn't well formed"),
            5 => f.write_str("the opcode held, or just fetched, isn't listed"),
            6 => f.write_str("the held opcode has no such cycle"),
            7 => f.write_str("a request outside bank 0"),
            _ => f.write_str(""),
        }
    }
}

#[derive(Clone, Copy, Debug, PartialEq, Eq)]
pub struct Ran {
    pub cycles: u32,
    pub refusal: Option<Refusal>,
}

impl Ran {
    // By glavorint_run's number: bits 0-31 its cycles, 32-39 its refusal.
    pub fn of_run(n: u64) -> Ran
        ensures { result ≡ run_of n }
    {
        Ran {
            cycles: (n % 4_294_967_296) as u32,
            refusal: Refusal::of((n / 4_294_967_296 % 256) as u8),
        }
    }

    // By glavorint_trace's: bits 0-23 its cycles, 56-63 its refusal.
    pub fn of_trace(n: u64) -> Ran
        ensures { result ≡ trace_of n }
    {
        Ran {
            cycles: (n % 16_777_216) as u32,
            refusal: Refusal::of((n / 72_057_594_037_927_936) as u8),
        }
    }

    // A run that wasn't refused, and the piece that went on from it.
    pub fn joined(self, next: Ran) -> Ran
        ensures { result ≡ joined_of self next }
    {
        Ran {
            cycles: self.cycles.wrapping_add(next.cycles),
            refusal: self.refusal.or(next.refusal),
        }
    }
}

// A piece of a trace whose text couldn't be written: how far it came, and why.
#[derive(Clone, Copy, Debug, PartialEq, Eq, Drop)]
pub struct Untold<E> {
    pub cycles: u32,
    pub why: E,
}

// glavorint_run's numbers of a run that wasn't refused and of the piece that went on from it, joined: their sum.
pub fn joined(before: u64, next: u64) -> u64
    ensures { result ≡ sum_of before next }
{
    before.wrapping_add(next)
}

// The bytes of text that a piece of a trace has, by glavorint_trace's number.
pub fn written(n: u64) -> usize
    ensures { result ≡ written_of n }
{
    (n / 16_777_216 % 4_294_967_296) as usize
}

// How a piece of a trace ended, by glavorint_trace's number and whether its text was written.
pub fn spelt<E>(n: u64, told: Result<(), E>) -> Result<Ran, Untold<E>>
    ensures { result ≡ spelt_of n told }
{
    let ran = Ran::of_trace(n);
    match told {
        Ok(()) => Ok(ran),
        Err(why) => Err(Untold {
            cycles: ran.cycles,
            why,
        }),
    }
}
