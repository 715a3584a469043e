// What a run goes over, and how it ended.
use cpu::types::{Record, Refusal};

// A memory that stands for bank 0.
pub type Bank = [u8; 65536];

// How a run ended, whatever tells of its refusal: what was refused, or a number.
#[derive(Clone, Copy)]
pub struct Outcome<R = Option<Refusal>> {
    pub refusal: R,
    pub cycles: u32, // how many were completed
    pub after: Record,
}
