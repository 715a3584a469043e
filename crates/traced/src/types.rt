// How a traced run ended.
use cpu::types::{Record, Refusal};

#[derive(Clone, Copy)]
pub struct Traced {
    pub refusal: Option<Refusal>,
    pub cycles: u32, // how many were completed
    pub written: usize, // bytes of text
    pub after: Record,
}
