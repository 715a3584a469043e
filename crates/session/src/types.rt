// What a bench lends from cycle to cycle.
use cpu::types::{Record, Refusal};

#[derive(Clone, Copy)]
pub struct Session {
    pub at: Record,
    pub cycles: u64, // how many were completed; at the top it stands still
}

// A session after a cycle.
#[derive(Clone, Copy)]
pub struct Stepped {
    pub session: Session,
    pub refusal: Option<Refusal>,
}
