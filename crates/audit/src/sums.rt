// The sums, added again without the chip: pulses from the samples, litres from the log, each against what the ROM has.
use crate::meter::{Flow, Samples, Tape};
use dairy::entry::{Entry, PLACES, Round, Total};
use dairy::page::verdict;
use dairy::yard::{Memory, value};
use std::{fmt, io};

// What was added up to here, and whether all of it agrees.
#[derive(Clone, Copy)]
pub struct Sums {
    pub samples: Samples,
    pub litres: u64,
    pub agrees: bool,
}

// A delivery's samples beside its entry, and the litres of the log up to here.
#[derive(Clone, Copy)]
struct Row {
    round: Round,
    at: u16,
    flow: Flow,
    entry: Entry,
    sum: u64,
}

impl Row {
    // Its pulses are the entry's litres, and the litres up to here the entry's total.
    fn agrees(&self) -> bool {
        let Row {
            round,
            flow,
            entry,
            sum,
            ..
        } = *self;
        entry.farm == flow.farm
            && entry.round == Some(round)
            && entry.is_figures()
            && value(entry.litres) == flow.samples.pulses
            && entry.total.litres() == sum
    }
}

impl fmt::Display for Row {
    fn fmt<W: fmt::Write>(&self, f: &mut fmt::Formatter<W>) -> fmt::Result {
        let Row { at, sum, .. } = *self;
        let pulses = self.flow.samples.pulses;
        let litres = value(self.entry.litres);
        let held = self.entry.total.litres();
        write!(
            f,
            "  {at:04X}  pulses {pulses:5} = log {litres:5}; so far {sum:5} = total {held:5}: "
        )?;
        f.write_str(verdict(self.agrees()))
    }
}

fn add_deliveries(rt: &impl Print, mem: &Memory) -> io::Result<Sums> {
    let mut s = Sums {
        samples: Samples::default(),
        litres: 0,
        agrees: true,
    };
    for ((round, at), flow) in PLACES.into_iter().zip(Tape::of(mem)) {
        let entry = Entry::at(mem, at);
        let sum = s.litres.wrapping_add(value(entry.litres));
        let row = Row {
            round,
            at,
            flow,
            entry,
            sum,
        };
        rt.println(row)?;
        s = Sums {
            samples: s.samples.plus(flow.samples),
            litres: sum,
            agrees: s.agrees && row.agrees(),
        };
    }
    Ok(s)
}

// The whole day: all pulses, all litres of the log, and the total that the ROM holds in its direct page.
pub fn add_day(rt: &impl Print, mem: &Memory) -> io::Result<Sums> {
    rt.println("\nThe sums, added again without the chip")?;
    let s = add_deliveries(rt, mem)?;
    let Sums {
        samples,
        litres,
        agrees,
    } = s;
    let pulses = samples.pulses;
    let held = Total::held(mem).litres();
    let day = pulses == litres && litres == held;
    println!(rt;
        "  day   pulses {pulses} = log {litres} = total {held}: {}",
        verdict(day)
    )?;
    Ok(Sums {
        agrees: agrees && day,
        ..s
    })
}
