// The lines, taken from the file's bytes one after the other, and what they come to.
use lines::form::read;
use lines::text::byte_of;
use lines::types::{Fault, Tally};
use std::io::IsTerminal;
use verdict::case::Case;
use verdict::judge::{judge, progress};
use verdict::report::{malformed, opcode_total, total};

// The cases of an opcode.
#[derive(Clone, Copy, Default)]
struct Count {
    replayed: u64,
    differ: u64,
}

// A list that is read: where its report and its signs of life go, what its lines came to, the line that comes, and the counts by opcode.
#[derive(Drop)]
pub struct List<'a, O: Print, E: Print + IsTerminal> {
    out: &'a O,
    err: &'a E,
    tally: Tally,
    // One byte more than a line may have: a line that fills it is too long, and what follows is dropped. How much of it has come stands in the
    // tally, whose definition in crates/lines has it (`tallied`).
    room: [u8; 1024],
    counts: [Count; 256],
}

impl<'a, O: Print, E: Print + IsTerminal> List<'a, O, E> {
    pub fn new(out: &'a O, err: &'a E) -> List<'a, O, E> {
        List {
            out,
            err,
            tally: Tally::start(),
            room: [0; 1024],
            counts: [Count::default(); 256],
        }
    }

    fn count(&mut self, opcode: u8, agrees: bool) {
        let n = &mut self.counts[opcode as usize];
        n.replayed = n.replayed.wrapping_add(1);
        if agrees {
            self.tally = self.tally.agreed();
        } else {
            n.differ = n.differ.wrapping_add(1);
            self.tally = self.tally.differed();
        }
    }

    fn spoil(&mut self, f: Fault) {
        malformed(self.out, self.tally.number, f);
        self.tally = self.tally.spoiled();
    }

    // The line that has come, without its end. Comments and empty lines are passed over.
    fn take_line(&mut self) {
        let Tally {
            number,
            size,
            differ,
            ..
        } = self.tally;
        let text = self.room.get(..size).unwrap_or(&[]);
        if let [] | [b'#', ..] = text {
            return;
        }
        let opcode = byte_of(text, 0);
        let out = self.out;
        let met = read(text, 1023).map(|places| judge(
            out,
            &Case {
                line: number,
                text,
                places,
            },
            differ,
        ));
        match met {
            Ok(agrees) => self.count(opcode, agrees),
            Err(f) => self.spoil(f),
        }
        progress(self.err, self.tally.lines());
    }

    fn end_line(&mut self) {
        self.take_line();
        self.tally = self.tally.next();
    }

    fn take_byte(&mut self, b: u8) {
        if b == b'\n' {
            self.end_line();
        } else if let Some(place) = self.room.get_mut(self.tally.size) {
            *place = b;
            self.tally.size = self.tally.size.wrapping_add(1);
        }
    }

    pub fn take_bytes(&mut self, bytes: &[u8]) {
        for b in bytes {
            self.take_byte(*b);
        }
    }

    // The file's end: a last line without a line end counts.
    pub fn finish(&mut self) {
        self.end_line();
        for (opcode, n) in (0..=255).zip(self.counts) {
            opcode_total(self.out, opcode, n.replayed, n.differ);
        }
        total(self.out, self.tally);
    }
}
