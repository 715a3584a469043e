// The machine's record, its parts, and what a cycle asks and answers.
use alu::types::Shift;
use flags::Flags;

// By the crate's names; scratch words `temp_addr`, `temp_data` and `temp_bank`.
#[derive(Clone, Copy)]
pub struct Record {
    pub a: u16,
    pub x: u16,
    pub y: u16,
    pub s: u16,
    pub d: u16,
    pub pc: u16,
    pub pbr: u8,
    pub dbr: u8,
    pub flags: Flags,
    // An opcode is held: `ir`, with its next cycle, `tcu`. No Option, since the C interface keeps the two bytes of a record that holds none.
    pub held: bool,
    pub ir: u8,
    pub tcu: u8,
    pub tempaddr: u16,
    pub tempdata: u16,
    pub tempbank: u8,
}

// What every cycle may change.
#[derive(Clone, Copy)]
pub struct Mid {
    pub pc: u16,
    pub s: u16,
    pub dbr: u8,
    pub tempaddr: u16,
    pub tempdata: u16,
    pub tempbank: u8,
}

// What an operation may change.
#[derive(Clone, Copy)]
pub struct Regs {
    pub a: u16,
    pub x: u16,
    pub y: u16,
    pub d: u16,
    pub flags: Flags,
}

// The crate's `AddressType`.
#[derive(Clone, Copy)]
pub enum Kind {
    Opcode,
    Program,
    Data,
    Invalid,
}

// What is asked of the bus; `byte` is what is written, 0 in a read, as the C interface and the sheet have it.
#[derive(Clone, Copy)]
pub struct Request {
    pub write: bool,
    pub kind: Kind,
    pub addr: u32,
    pub byte: u8,
}

// Document 01's list of refusals, by its numbers from 1 on.
#[derive(Clone, Copy)]
pub enum Refusal {
    Memory,
    Budget,
    Room,
    Malformed,
    Unlisted,
    NoCycle,
    Bank,
}

// The registers that operations work on.
#[derive(Clone, Copy)]
pub enum Reg {
    A,
    X,
    Y,
}

// What is stored or pushed.
#[derive(Clone, Copy)]
pub enum Source {
    Register(Reg),
    Zero,
    D,
    P,
    Pbr,
    Dbr,
}

// Which byte of an operand: the only one, or one of two.
#[derive(Clone, Copy)]
pub enum Part {
    Only,
    Low,
    High,
}

// How a pull moves S in emulation: `stack_pop` stays in page 1, `stack_pop_raw` does not, and RTL's first pull starts there.
#[derive(Clone, Copy)]
pub enum Stack {
    Paged,
    Raw,
    Home,
}

// A branch's condition.
#[derive(Clone, Copy)]
pub enum Cond {
    Always,
    Carry(bool),
    Zero(bool),
    Negative(bool),
    Overflow(bool),
}

// An instruction of one byte and two cycles, and XBA.
#[derive(Clone, Copy)]
pub enum One {
    Accumulator(Shift),
    Carry(bool),
    Interrupt(bool),
    Decimal(bool),
    Clv,
    Nop,
    Xce,
    Xba,
    Transfer(Reg, Reg),
    Index(Reg, bool), // INX, INY: true; DEX, DEY: false
    Tsx,
    Txs,
    Tcs,
    Tsc,
    Tcd,
    Tdc,
}
