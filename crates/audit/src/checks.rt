// What else has to be so: the cycles are the paper's, and nothing was written beside record and log.
ghost use Rattle.std.specs.Prelude.{◌<◌};

use crate::meter::{Samples, put_day};
use crate::rom::put_rom;
use dairy::page::verdict;
use dairy::yard::Memory;
use std::io;

pub fn lay(mem: &mut Memory) {
    put_rom(mem);
    put_day(mem);
}

// By the paper's table of cycles: 16 a pulse, 7 a sample without one.
fn of_samples(s: Samples) -> u64
    ensures { result < 2000000 }
{
    s.pulses % 65536 * 16 + s.idle % 65536 * 7
}

// 33 for the day's begin, 64 of the first delivery's 127.
pub fn cycles_to_move(s: Samples) -> u32 {
    (of_samples(s) + 33 + 64) as u32
}

// 127 a delivery, 73 for the day's begin, evening and end.
fn by_the_table(s: Samples) -> u64 {
    of_samples(s) + 6 * 127 + 73
}

// Each check answers whether all is as it should be, or why that couldn't be said.
pub fn check_cycles(rt: &impl Print, cycles: u32, s: Samples) -> io::Result<bool> {
    let table = by_the_table(s);
    let agrees = cycles as u64 == table;
    print!(rt; "  day   cycles {cycles} = by the table of instructions {table}")?;
    println!(rt; ": {}", verdict(agrees))?;
    Ok(agrees)
}

// The direct page's ten bytes, and 24 at the head of each of the log's two pages.
fn is_the_roms(at: usize) -> bool {
    at < 10 || at / 512 == 16 && at % 256 < 24
}

fn count_strange(mem: &Memory, old: &Memory) -> usize {
    mem.iter()
        .zip(old)
        .enumerate()
        .filter(|(at, (b, was))| !is_the_roms(*at) && *b != *was)
        .count()
}

pub fn check_elsewhere(rt: &impl Print, mem: &Memory) -> io::Result<bool> {
    let mut old = [0u8; 65536];
    lay(&mut old);
    let n = count_strange(mem, &old);
    let agrees = n == 0;
    println!(rt;
        "  day   bytes changed outside record and log {n}: {}",
        verdict(agrees)
    )?;
    Ok(agrees)
}
