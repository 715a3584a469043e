// What a line is found to be.

// The first field that isn't as the format says.
#[derive(Clone, Copy)]
pub enum Fault {
    Length,
    Id,
    Source,
    Start,
    Cycles,
    After,
    Extra,
}

// Where the id ends, where the other fields begin, and how many cycles there are.
#[derive(Clone, Copy)]
pub struct Places {
    pub id: usize,
    pub start: usize,
    pub cycles: usize,
    pub count: usize,
    pub after: usize,
}

// Where the cycles end, and how many they are.
#[derive(Clone, Copy)]
pub struct Span {
    pub end: usize,
    pub count: usize,
}

// The number of the line that is being read and how much of it has come; then what the lines before it came to.
#[derive(Clone, Copy)]
pub struct Tally {
    pub number: u64,
    pub size: usize,
    pub agree: u64,
    pub differ: u64,
    pub bad: u64,
}
