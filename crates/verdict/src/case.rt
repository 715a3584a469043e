// A case that differs, and its block in the report.
use course::asked::request_text;
use course::run::{ends_alike, is_home};
use course::types::{Course, Difference};
use cpu::types::Record;
use lines::form::cycle_end;
use lines::state::words_of;
use lines::types::Places;
use std::io;

// A line's number, its characters, and where its fields stand.
#[derive(Clone, Copy)]
pub struct Case<'a> {
    pub line: u64,
    pub text: &'a [u8],
    pub places: Places,
}

impl Case<'_> {
    // The characters from one place to another, where there are such.
    fn say_part(&self, rt: &impl Print, from: usize, to: usize) -> io::Result<()> {
        match self.text.get(from..to) {
            Some(part) => rt.write_all(part),
            None => Ok(()),
        }
    }

    // The line's number and its id.
    fn say_head(&self, rt: &impl Print) -> io::Result<()> {
        let line = self.line;
        print!(rt; "line {line} ")?;
        self.say_part(rt, 0, self.places.id)
    }

    fn say_difference(&self, rt: &impl Print, at: usize, d: Difference) -> io::Result<()> {
        match d {
            Difference::Asked(q) => rt.write_all(&request_text(self.text, at, q)),
            Difference::Refused(n) => print!(rt; "refused {}", u8::from(n)),
            Difference::Ended => rt.print("nothing: the instruction ended"),
        }
    }

    // What the line has at a cycle, and what came instead.
    fn cycle_differs(&self, rt: &impl Print, c: Course, d: Difference) -> io::Result<()> {
        let Course { cycle, at, .. } = c;
        self.say_head(rt)?;
        print!(rt; ": cycle {cycle}: expected ")?;
        if let Some(end) = cycle_end(self.text, at) {
            self.say_part(rt, at, end)?;
        }
        rt.print(", asked ")?;
        self.say_difference(rt, at, d)?;
        rt.println("")
    }

    fn still_under_way(&self, rt: &impl Print) -> io::Result<()> {
        let count = self.places.count;
        self.say_head(rt)?;
        println!(rt; ": cycles: expected {count}, still under way")
    }

    fn words_differ(&self, rt: &impl Print, r: Record) -> io::Result<()> {
        let after = self.places.after;
        self.say_head(rt)?;
        rt.print(": after: expected ")?;
        self.say_part(rt, after, after.wrapping_add(40))?;
        rt.print(", got ")?;
        rt.write_all(&words_of(r))?;
        rt.println("")
    }

    fn end_differs(&self, rt: &impl Print, r: Record) -> io::Result<()> {
        if !is_home(r) {
            self.still_under_way(rt)?;
        }
        if !ends_alike(self.text, self.places, r) {
            self.words_differ(rt, r)?;
        }
        Ok(())
    }

    // The block: the first cycle that differs, or what differs at the end.
    pub fn say_block(&self, rt: &impl Print, c: Course) -> io::Result<()> {
        match c.met {
            Ok(r) => self.end_differs(rt, r),
            Err(d) => self.cycle_differs(rt, c, d),
        }
    }
}
