// The day's title, and how its run and its checks end.
use std::io;

pub fn say_title(rt: &impl Print) -> io::Result<()> {
    rt.println("A day at the farmyard")?;
    rt.println(
        "Each pulse of the tanker's flow meter is a litre. A ROM for the 65C816 (docs/ROM.md)",
    )?;
    rt.println(
        "counts them in decimal digits and moves each finished delivery into the log by MVN.",
    )?;
    rt.println("")
}

// What a check's line ends with.
pub fn verdict(agrees: bool) -> &'static str {
    if agrees { "agrees" } else { "DIFFERS" }
}

pub fn say_all(rt: &impl Print, all: bool) -> io::Result<()> {
    rt.println(if all {
        "All agrees."
    } else {
        "NOT all agrees."
    })
}
