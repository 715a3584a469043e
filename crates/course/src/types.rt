// What a case comes to.
ghost use Rattle.std.specs.Prelude.{◌≡◌};
ghost use Rattle.course.specs.declared.types.Difference.TheVariants.{Refused};

use cpu::types::{Record, Refusal, Request};

// How a cycle differs from the line: something else was asked, it was refused, or the instruction had ended.
#[derive(Clone, Copy)]
pub enum Difference {
    Asked(Request),
    Refused(Refusal),
    Ended,
}

impl From<Refusal> for Difference {
    ghost from_gives = { λ n d. d ≡ Refused n };

    fn from(n: Refusal) -> Difference {
        Difference::Refused(n)
    }
}

// What the last cycle that was tried came to, its number from 1 on, and its place in the line.
#[derive(Clone, Copy)]
pub struct Course {
    pub met: Result<Record, Difference>,
    pub cycle: usize,
    pub at: usize,
}
