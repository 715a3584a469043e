// A day at the farmyard: the meter's ROM counts six deliveries in decimal and moves each into the log; then slip, log, cycles, the trace of
// the first byte moved, and the sums added again. It ends with 0 if all agrees, 1 if not.
#![tactic(auto)]

mod day;

use audit::checks::{check_cycles, check_elsewhere, cycles_to_move, lay};
use audit::meter::Tape;
use audit::sums::add_day;
use cpu::record::number_in;
use dairy::page::{say_all, say_title};
use dairy::slip::{say_log, say_slip};
use dairy::yard::Memory;
use day::{Day, run_day};
use gate::say::untold;
use std::io;
use std::process::ExitCode;

fn say_end(rt: &impl Print, mem: &Memory, d: Day<'_>) -> io::Result<()> {
    let cycles = d.cycles;
    let number = number_in(d.end.refusal);
    let pc = d.end.after.pc;
    let byte = mem[pc as usize];
    rt.println("\nThe run")?;
    print!(rt; "  {cycles} cycles, ended by refusal {number} at {pc:04X}, byte {byte:02X}: ")?;
    rt.println(if d.is_done() {
        "STP, the day is done"
    } else {
        "NOT the end of the day"
    })
}

fn say_trace(rt: &impl Print, before: u32, trace: &[u8]) -> io::Result<()> {
    println!(rt; "\nThe trace of the first byte moved, after cycle {before}")?;
    rt.write_all(trace)
}

fn check_all(rt: &impl Print, mem: &Memory, d: Day<'_>) -> io::Result<bool> {
    let sums = add_day(rt, mem)?;
    let cycles = check_cycles(rt, d.cycles, sums.samples)?;
    let elsewhere = check_elsewhere(rt, mem)?;
    Ok(sums.agrees && d.moved && d.is_done() && cycles && elsewhere)
}

// Whether all of the day agrees, or why it couldn't be shown.
fn show(rt: &impl Print) -> io::Result<bool> {
    let mut mem = [0u8; 65536];
    let mut text = [0u8; 160];
    lay(&mut mem);
    let first = Tape::of(&mem).next();
    let before = first.map_or(0, |f| cycles_to_move(f.samples));
    let d = run_day(&mut mem, &mut text, before);
    say_title(rt)?;
    say_slip(rt, &mem)?;
    say_log(rt, &mem)?;
    say_end(rt, &mem, d)?;
    say_trace(rt, before, d.trace)?;
    let all = check_all(rt, &mem, d)?;
    say_all(rt, all)?;
    Ok(all)
}

// A day that nobody could read is no day that agrees.
fn main(rt: HostRuntime) -> ExitCode {
    match show(&rt) {
        Ok(true) => ExitCode::SUCCESS,
        Ok(false) => ExitCode::FAILURE,
        Err(why) => untold(&rt.stderr(), why),
    }
}
