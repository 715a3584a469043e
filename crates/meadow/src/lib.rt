// Random deliveries as a program in a memory: a part of the program `deliveries`.
#![tactic(auto)]

ghost use Rattle.std.specs.Prelude.{◌<◌};

// How many deliveries a program has.
pub const COUNT: u16 = 16384;

const CLC: u8 = 0x18;

const SEC: u8 = 0x38;

const ADC: u8 = 0x69;

const SBC: u8 = 0xE9;

// How wide the accumulator is: two decimal digits, or four.
#[derive(Clone, Copy)]
pub enum Width {
    Byte,
    Word,
}

impl Width {
    // A delivery's bytes.
    fn size(self) -> u16
        ensures { result < 5 }
    {
        match self {
            Width::Byte => 3,
            Width::Word => 4,
        }
    }

    // A delivery's cycles.
    pub fn cycles(self) -> u32
        ensures { result < 6 }
    {
        match self {
            Width::Byte => 4,
            Width::Word => 5,
        }
    }

    // The first number that has no digits.
    pub fn modulus(self) -> u64
        ensures { result < 10001 }
    {
        match self {
            Width::Byte => 100,
            Width::Word => 10000,
        }
    }

    // The number of the digits that a word has at this width.
    pub fn number(self, w: u16) -> u64 {
        let [low, high] = w.to_le_bytes();
        match self {
            Width::Byte => value(low),
            Width::Word => value(low) + 100 * value(high),
        }
    }

    // Where delivery i stands.
    pub fn place(self, i: u16) -> u16 {
        i % COUNT * self.size()
    }
}

// Knuth's line of random numbers for 32 bits.
fn next(seed: u32) -> u32 {
    seed.wrapping_mul(1664525).wrapping_add(1013904223)
}

// Two random decimal digits.
fn pair(seed: u32) -> u8 {
    let tens = seed / 65536 % 10;
    let ones = seed / 655360 % 10;
    (tens * 16 + ones) as u8
}

pub fn value(b: u8) -> u64
    ensures { result < 256 }
{
    (b / 16 * 10 + b % 16) as u64
}

// CLC, ADC # or SEC, SBC #, by a bit of the seed.
fn put_delivery(mem: &mut [u8; 65536], width: Width, at: u16, seed: u32) {
    let ops = if seed / 16777216 % 2 == 0 {
        [CLC, ADC]
    } else {
        [SEC, SBC]
    };
    let [carry, sum] = ops;
    mem[at as usize] = carry;
    mem[at.wrapping_add(1) as usize] = sum;
    mem[at.wrapping_add(2) as usize] = pair(seed);
    if let Width::Word = width {
        mem[at.wrapping_add(3) as usize] = pair(next(seed));
    }
}

// The program, from 0000 on.
pub fn fill(mem: &mut [u8; 65536], width: Width, seed: u32) {
    let mut s = seed;
    for i in 0..COUNT {
        s = next(s);
        put_delivery(mem, width, width.place(i), s);
    }
}

// What a delivery does to the accumulator.
#[derive(Clone, Copy)]
pub enum Delivery {
    Add(u64),
    Take(u64),
}

// The delivery at an address.
pub fn delivery_at(mem: &[u8; 65536], width: Width, at: u16) -> Delivery {
    let low = mem[at.wrapping_add(2) as usize];
    let high = mem[at.wrapping_add(3) as usize];
    let n = width.number(u16::from_le_bytes([low, high]));
    if mem[at as usize] == CLC {
        Delivery::Add(n)
    } else {
        Delivery::Take(n)
    }
}
