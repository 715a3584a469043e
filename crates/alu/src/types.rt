// The operations, and what they hand back.
use flags::Flags;

// On a byte of a register and a byte that was read.
#[derive(Clone, Copy)]
pub enum Alu {
    Adc,
    Sbc,
    Cmp,
    And,
    Ora,
    Eor,
    Bit,
    BitImmediate, // changes Z alone
    Load,
}

// On the accumulator alone.
#[derive(Clone, Copy)]
pub enum Shift {
    Asl,
    Rol,
    Lsr,
    Ror,
    Inc,
    Dec,
}

#[derive(Clone, Copy)]
pub struct Byte {
    pub byte: u8,
    pub flags: Flags,
}

#[derive(Clone, Copy)]
pub struct Word {
    pub word: u16,
    pub flags: Flags,
}

// Where a byte stands among those of an operation: `first` says that no byte came before, so that Z starts anew;
// `top` that this byte has the sign, so that N is its.
#[derive(Clone, Copy)]
pub struct Ends {
    pub first: bool,
    pub top: bool,
}

impl Ends {
    // The only byte, or the high one where that comes first.
    pub const BOTH: Ends = Ends {
        first: true,
        top: true,
    };
    // Two bytes, the low one first.
    pub const LOW: Ends = Ends {
        first: true,
        top: false,
    };

    pub const HIGH: Ends = Ends {
        first: false,
        top: true,
    };
    // The low byte after the high one.
    pub const NEITHER: Ends = Ends {
        first: false,
        top: false,
    };
}
