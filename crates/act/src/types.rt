// Where a cycle leads, once the record and the byte are known.
#[derive(Clone, Copy)]
pub enum Way {
    On(u8), // the instruction's next cycle; each with its program bank
    End(u8), // the next instruction's start
    Again(u8), // the move's next byte
}
