// What lent bytes are found to be.
use cpu::types::Refusal;
use session::types::Session;

// How so many cycles ended.
#[derive(Clone, Copy)]
pub struct Went {
    pub session: Session,
    pub cycles: u32, // how many were completed
    pub refusal: Option<Refusal>, // what ended them, if they were refused
}

// The same without the session.
#[derive(Clone, Copy)]
pub struct Tally {
    pub cycles: u32,
    pub refusal: Option<Refusal>,
}
