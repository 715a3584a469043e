// How a trace has ended.
use cpu::types::{Record, Refusal};

#[derive(Clone, Copy)]
pub struct Told {
    pub refusal: Option<Refusal>,
    pub cycles: u32, // how many were completed
    pub place: usize, // after the last line
    pub after: Record,
}
