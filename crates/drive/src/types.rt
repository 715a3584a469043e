// How far a stretch has got.
use cpu::types::Record;

// How many cycles were done at a stretch, the place after their lines, and the record. None done is a true count: all is then as it was.
#[derive(Clone, Copy)]
pub struct Walk {
    pub cycles: u32,
    pub place: usize,
    pub after: Record,
}
