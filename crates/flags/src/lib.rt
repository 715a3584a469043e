// The status register, by the crate's names. A method takes the record and hands it back.
#![tactic(auto)]

ghost use Rattle.std.specs.Prelude.{◌≡◌, ◌≤◌, ◌<◌};
ghost use Rattle.flags.specs.Flags.{bit_of, weigh, byte_of, set_mask, set_byte, set_nvzc, set_nz, set_id, settled, swap_ce};

use words::{choose, either};

#[derive(Clone, Copy)]
pub struct Flags {
    pub carry: bool,
    pub zero: bool,
    pub interruptdisable: bool,
    pub decimal: bool,
    pub indexsel: bool, // X: the index registers are 8 bits wide
    pub memsel: bool, // M: the accumulator is 8 bits wide
    pub overflow: bool,
    pub negative: bool,
    pub emulation: bool,
}

// Whether a byte has the bit of that weight.
fn bit_of(b: u8, weight: u8) -> bool
    requires { 0 < weight }
    ensures { result ≡ bit_of b weight }
{
    b / weight % 2 == 1
}

// A bit's weight where it is set.
fn weigh_if(t: bool, weight: u8) -> u8
    ensures value { result ≡ weigh t weight }
    ensures small { result ≤ weight }
{
    choose(t, weight, 0)
}

impl Flags {
    // The byte that PHP pushes: in emulation bits 4 and 5 are set.
    #[tactic(auto, unfolding(crate::specs::Flags::byte_of))]
    pub fn as_byte(self) -> u8
        ensures { result ≡ byte_of self }
    {
        let x = either(self.emulation, self.indexsel);
        let m = either(self.emulation, self.memsel);
        weigh_if(self.carry, 1)
            + weigh_if(self.zero, 2)
            + weigh_if(self.interruptdisable, 4)
            + weigh_if(self.decimal, 8)
            + weigh_if(x, 16)
            + weigh_if(m, 32)
            + weigh_if(self.overflow, 64)
            + weigh_if(self.negative, 128)
    }

    // REP clears the flags of a mask and SEP sets them; in emulation the width flags stay.
    #[tactic(auto, unfolding(crate::specs::Flags::set_mask))]
    pub fn set_mask(mut self, mask: u8, set: bool) -> Self
        ensures { result ≡ set_mask self mask set }
    {
        let e = self.emulation;
        Flags {
            carry: choose(bit_of(mask, 1), set, self.carry),
            zero: choose(bit_of(mask, 2), set, self.zero),
            interruptdisable: choose(bit_of(mask, 4), set, self.interruptdisable),
            decimal: choose(bit_of(mask, 8), set, self.decimal),
            indexsel: choose(
                e,
                self.indexsel,
                choose(bit_of(mask, 16), set, self.indexsel),
            ),
            memsel: choose(e, self.memsel, choose(bit_of(mask, 32), set, self.memsel)),
            overflow: choose(bit_of(mask, 64), set, self.overflow),
            negative: choose(bit_of(mask, 128), set, self.negative),
            ..self
        }
    }

    // PLP sets the flags from a byte; in emulation the width flags stay. The crate's `set`.
    #[tactic(auto, unfolding(crate::specs::Flags::set_byte))]
    pub fn set(mut self, value: u8) -> Self
        ensures { result ≡ set_byte self value }
    {
        let e = self.emulation;
        Flags {
            carry: bit_of(value, 1),
            zero: bit_of(value, 2),
            interruptdisable: bit_of(value, 4),
            decimal: bit_of(value, 8),
            indexsel: choose(e, self.indexsel, bit_of(value, 16)),
            memsel: choose(e, self.memsel, bit_of(value, 32)),
            overflow: bit_of(value, 64),
            negative: bit_of(value, 128),
            ..self
        }
    }

    // Other N, V, Z and C: what an operation may change.
    pub fn set_nvzc(mut self, n: bool, v: bool, z: bool, c: bool) -> Self
        ensures { result ≡ set_nvzc self n v z c }
    {
        Flags {
            carry: c,
            zero: z,
            overflow: v,
            negative: n,
            ..self
        }
    }

    // N and Z of a value at its width.
    #[tactic(auto, unfolding(crate::specs::Flags::set_nz))]
    pub fn set_nz(mut self, value: u16, wide: bool) -> Self
        ensures { result ≡ set_nz self value wide }
    {
        let l = value % 256;
        let n = choose(wide, value >= 32768, l >= 128);
        let z = choose(wide, value == 0, l == 0);
        self.set_nvzc(n, self.overflow, z, self.carry)
    }

    // Other I and D: CLI, SEI, CLD and SED.
    pub fn set_id(mut self, i: bool, d: bool) -> Self
        ensures { result ≡ set_id self i d }
    {
        Flags {
            interruptdisable: i,
            decimal: d,
            ..self
        }
    }

    // XCE: carry and emulation change places. What entering emulation asks is made so by `settle`.
    pub fn swap_ce(mut self) -> Self
        ensures { result ≡ swap_ce self }
    {
        Flags {
            carry: self.emulation,
            emulation: self.carry,
            ..self
        }
    }

    // In emulation both width flags are set.
    pub fn settle(mut self) -> Self
        ensures { result ≡ settled self }
    {
        Flags {
            indexsel: either(self.emulation, self.indexsel),
            memsel: either(self.emulation, self.memsel),
            ..self
        }
    }
}
