// Standard output that remembers whether its reader has left, since nothing is to be read for a report that nobody takes.
use std::cell::Cell;
use std::fmt::Display;
use std::io;

#[derive(Drop)]
pub struct Watched<'a> {
    out: &'a HostRuntime,
    left: Cell<bool>,
}

impl<'a> Watched<'a> {
    pub fn new(out: &'a HostRuntime) -> Watched<'a> {
        Watched {
            out,
            left: Cell::new(false),
        }
    }

    pub fn has_left(&self) -> bool {
        self.left.get()
    }

    fn noted(&self, told: io::Result<()>) -> io::Result<()> {
        told.inspect_err(|why| {
            if why.kind() == io::ErrorKind::BrokenPipe {
                self.left.set(true);
            }
        })
    }
}

impl Print for Watched<'_> {
    fn print<D: Display + Drop>(&self, value: D) -> io::Result<()> {
        self.noted(self.out.print(value))
    }

    fn println<D: Display + Drop>(&self, value: D) -> io::Result<()> {
        self.noted(self.out.println(value))
    }

    fn write_all(&self, bytes: &[u8]) -> io::Result<()> {
        self.noted(self.out.write_all(bytes))
    }
}
