// What the meter sends on the day: for each delivery the farm's key, a sample each time the meter looks, and FF where the valve closes.
use dairy::yard::Memory;

const SAMPLES: u16 = 0x3000;

const EVENING: u8 = 0x80;

const CLOSED: u8 = 0xFF;

// The meter, whose bytes are laid into the memory one after the other.
#[derive(Drop)]
struct Meter<'a> {
    mem: &'a mut Memory,
    at: u16,
}

impl Meter<'_> {
    fn put(&mut self, b: u8) {
        self.mem[self.at as usize] = b;
        self.at = self.at.wrapping_add(1);
    }

    // A pulse is 01 and stands for a litre; a sample without one, 00, follows every fourth of those that are left.
    fn put_pulses(&mut self, litres: u16) {
        for done in 0..litres {
            self.put(0x01);
            if (litres - done) % 4 == 0 {
                self.put(0x00);
            }
        }
    }

    // The litres of farms 1, 2 and 3.
    fn put_round(&mut self, litres: [u16; 3]) {
        for (farm, n) in (1..=3).zip(litres) {
            self.put(farm);
            self.put_pulses(n);
            self.put(CLOSED);
        }
    }
}

// The last delivery goes from 99 to 100, and takes the day past 9999. The 00 that ends the day is there already.
pub fn put_day(mem: &mut Memory) {
    let mut meter = Meter { mem, at: SAMPLES };
    meter.put_round([2687, 2518, 99]);
    meter.put(EVENING);
    meter.put_round([2385, 2249, 100]);
}

// Samples with a pulse and without.
#[derive(Clone, Copy, Default)]
pub struct Samples {
    pub pulses: u64,
    pub idle: u64,
}

impl Samples {
    pub fn plus(self, more: Samples) -> Samples {
        Samples {
            pulses: self.pulses.wrapping_add(more.pulses),
            idle: self.idle.wrapping_add(more.idle),
        }
    }
}

// A delivery found among the samples: its farm, and what was counted.
#[derive(Clone, Copy)]
pub struct Flow {
    pub farm: u8,
    pub samples: Samples,
}

// What is left of what the meter sent, from a key on.
#[derive(Drop)]
pub struct Tape<'a>(&'a [u8]);

impl<'a> Tape<'a> {
    pub fn of(mem: &'a Memory) -> Tape<'a> {
        Tape(&mem[SAMPLES as usize..])
    }
}

fn counted(samples: &[u8]) -> Samples {
    let pulses = samples.iter().filter(|b| **b != 0).count();
    let idle = samples.iter().filter(|b| **b == 0).count();
    Samples {
        pulses: pulses as u64,
        idle: idle as u64,
    }
}

// The deliveries, with the key of the evening passed over. One whose valve doesn't close is none.
impl Iterator for Tape<'_> {
    type Item = Flow;

    fn next(&mut self) -> Option<Flow> {
        let ([EVENING, tape @ ..] | tape) = self.0;
        let (&farm, tape) = tape.split_first()?;
        let size = tape.iter().position(|b| *b >= EVENING)?;
        let (samples, end) = tape.split_at(size);
        let (_, rest) = end.split_first()?;
        self.0 = rest;
        Some(Flow {
            farm,
            samples: counted(samples),
        })
    }
}
