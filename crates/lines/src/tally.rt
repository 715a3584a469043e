// What the lines of a list come to. Counts wrap, which no list reaches.
ghost use Rattle.std.specs.Prelude.{◌≡◌, ◌+◌, ◌%◌, ◌^◌};
ghost use Rattle.lines.specs.Tally.{tallied, lines_of};

use crate::types::Tally;

impl Tally {
    // The first line comes, and nothing of it yet.
    pub fn start() -> Tally
        ensures { result ≡ tallied 1 0 0 0 0 }
    {
        Tally {
            number: 1,
            size: 0,
            agree: 0,
            differ: 0,
            bad: 0,
        }
    }

    // Cases and malformed lines.
    #[tactic(auto, unfolding(crate::specs::Tally::lines_of))]
    pub fn lines(self) -> u64
        ensures { result ≡ lines_of self }
    {
        self.agree.wrapping_add(self.differ).wrapping_add(self.bad)
    }

    // One case more that agrees.
    pub fn agreed(self) -> Tally
        ensures { result ≡ tallied self.number self.size ((self.agree + 1) % 2 ^ 64) self.differ self.bad }
    {
        Tally {
            agree: self.agree.wrapping_add(1),
            ..self
        }
    }

    // One that differs.
    pub fn differed(self) -> Tally
        ensures { result ≡ tallied self.number self.size self.agree ((self.differ + 1) % 2 ^ 64) self.bad }
    {
        Tally {
            differ: self.differ.wrapping_add(1),
            ..self
        }
    }

    // A malformed line more.
    pub fn spoiled(self) -> Tally
        ensures { result ≡ tallied self.number self.size self.agree self.differ ((self.bad + 1) % 2 ^ 64) }
    {
        Tally {
            bad: self.bad.wrapping_add(1),
            ..self
        }
    }

    // The next line comes.
    pub fn next(self) -> Tally
        ensures { result ≡ tallied ((self.number + 1) % 2 ^ 64) 0 self.agree self.differ self.bad }
    {
        Tally {
            number: self.number.wrapping_add(1),
            size: 0,
            ..self
        }
    }
}
