// The slip and the log, as the ROM left them.
use crate::entry::{Entry, PLACES, Round, Total};
use crate::yard::{Memory, bytes_at, value};
use std::io;

fn name(round: Option<Round>) -> &'static str {
    match round {
        Some(Round::Morning) => "morning",
        Some(Round::Evening) => "evening",
        None => "-------",
    }
}

fn say_delivery(rt: &impl Print, e: Entry) -> io::Result<()> {
    let round = name(e.round);
    let farm = e.farm;
    let litres = value(e.litres);
    let so_far = e.total.litres();
    println!(rt; "  {round}  {farm:5}    {litres:5}        {so_far:5}")
}

// What the last delivery does to the total: its lower word passes 9999, and the upper one takes the carry.
fn say_carry(rt: &impl Print, before: Total, last: Entry) -> io::Result<()> {
    let Total { low, high } = before;
    print!(rt;
        "The last sum in the ROM's digits: {high:04X} {low:04X} + {:04X}",
        last.litres
    )?;
    let Total { low, high } = last.total;
    println!(rt; " = {high:04X} {low:04X}")
}

pub fn say_slip(rt: &impl Print, mem: &Memory) -> io::Result<()> {
    rt.println("The slip")?;
    rt.println("  round     farm   litres   day so far")?;
    for (_, at) in PLACES {
        say_delivery(rt, Entry::at(mem, at))?;
    }
    let sum = Total::held(mem).litres();
    println!(rt; "  total                          {sum:5}")?;
    let [.., (_, before), (_, last)] = PLACES;
    say_carry(rt, Entry::at(mem, before).total, Entry::at(mem, last))
}

fn say_entry(rt: &impl Print, at: u16, bytes: [u8; 8]) -> io::Result<()> {
    let [farm, round, m, n, a, b, c, d] = bytes;
    print!(rt; "  {at:04X}   {farm:02X}   {round:02X}     {m:02X} {n:02X}")?;
    println!(rt; "   {a:02X} {b:02X} {c:02X} {d:02X}")
}

pub fn say_log(rt: &impl Print, mem: &Memory) -> io::Result<()> {
    rt.println("")?;
    rt.println("The log, bytes as they stand; the evening's page is the next")?;
    rt.println("  at     farm round  litres  day so far")?;
    for (_, at) in PLACES {
        say_entry(rt, at, bytes_at::<8>(mem, at))?;
    }
    Ok(())
}
