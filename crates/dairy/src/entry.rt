// An entry of the log: farm, round, litres, and the day's total so far, its low word first. The morning's page is 2000, the evening's 2100.
use crate::yard::{Memory, bytes_at, is_decimal, value};
use words::join;

#[derive(Clone, Copy, PartialEq, Eq)]
pub enum Round {
    Morning,
    Evening,
}

// Where the six entries belong, in the order of the deliveries: three a page, at the same places of both.
pub const PLACES: [(Round, u16); 6] = [
    (Round::Morning, 0x2000),
    (Round::Morning, 0x2008),
    (Round::Morning, 0x2010),
    (Round::Evening, 0x2100),
    (Round::Evening, 0x2108),
    (Round::Evening, 0x2110),
];

// A total of eight digits in two words.
#[derive(Clone, Copy)]
pub struct Total {
    pub low: u16,
    pub high: u16,
}

#[derive(Clone, Copy)]
pub struct Entry {
    pub farm: u8,
    pub round: Option<Round>,
    pub litres: u16,
    pub total: Total,
}

impl From<[u8; 4]> for Total {
    fn from(bytes: [u8; 4]) -> Total {
        let [l, m, n, h] = bytes;
        Total {
            low: join(l, m),
            high: join(n, h),
        }
    }
}

impl Total {
    // The total that the ROM holds in its direct page.
    pub fn held(mem: &Memory) -> Total {
        Total::from(bytes_at::<4>(mem, 4))
    }

    pub fn litres(self) -> u64 {
        value(self.low) + 10000 * value(self.high)
    }
}

fn round_of(b: u8) -> Option<Round> {
    match b {
        0 => Some(Round::Morning),
        1 => Some(Round::Evening),
        _ => None,
    }
}

impl From<[u8; 8]> for Entry {
    fn from(bytes: [u8; 8]) -> Entry {
        let [farm, round, low, high, a, b, c, d] = bytes;
        Entry {
            farm,
            round: round_of(round),
            litres: join(low, high),
            total: Total::from([a, b, c, d]),
        }
    }
}

impl Entry {
    pub fn at(mem: &Memory, at: u16) -> Entry {
        Entry::from(bytes_at::<8>(mem, at))
    }

    // Whether every figure is a decimal digit.
    pub fn is_figures(self) -> bool {
        is_decimal(self.litres) && is_decimal(self.total.low) && is_decimal(self.total.high)
    }
}
