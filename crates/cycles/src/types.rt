// What one cycle asks of the bus, and what it does with the byte that is answered.
use cpu::types::{Part, Refusal};
use opcodes::types::Operation;

// What a cycle puts on the bus.
#[derive(Clone, Copy)]
pub enum Ask {
    Program, // PBR:PC
    Idle, // PBR:PC
    IdleBack, // the operand's last byte, PC being past it
    IdleAfter, // a branch's address after the operand
    IdleStack, // JSL: S + 1
    IdleHome, // RTS: S, page 1 in emulation
    Opcode, // a move's opcode again
    Far, // DBR and the address
    FarNext, // a 24-bit sum
    Near, // bank 0
    NearNext,
    NearThird, // the bank of JMP [a]
    Table, // (a,x): in the program bank
    TableNext,
    PullPaged,
    PullRaw,
    PullHome,
    StoreFar,
    StoreFarNext,
    StoreNear,
    StoreNearNext,
    PushLow,
    PushHigh,
    PushPcLow,
    PushPcHigh,
    PushDataLow,
    PushDataHigh,
    PushPbr,
    MoveRead,
    MoveWrite,
    MoveIdle,
}

// What a cycle does to PC, S, DBR and the scratch words.
#[derive(Clone, Copy)]
pub enum Move {
    Stay,
    Step,
    AddrLow,
    AddrHigh,
    AddrLast, // the high byte, with PC left on it
    Offset, // the direct address: D and the byte
    DataLow,
    DataHigh,
    ReadLow,
    ReadHigh,
    BankByte,
    PullPaged, // `stack_pop`
    PullRaw, // `stack_pop_raw`
    PullBank, // PLB
    PushPaged, // `stack_push`
    PushRaw, // `stack_push_raw`
    Stacked, // TXS, TCS
    Relative, // PER's sum
    JumpRead, // to the word that was read
    JumpAddr, // to the operand
    JumpData, // to the pointer
    Call,
    PcLowPaged,
    PcLowHome,
    PcHighPaged,
    PcHighRaw,
    ReturnLong,
    Branch,
    Take,
    TakeLong,
    MoveTo,
    MoveFrom,
    MoveStore,
    MoveEnd,
}

// What a cycle does to A, X, Y, D and the flags.
#[derive(Clone, Copy)]
pub enum Change {
    Keep,
    Operate(Part),
    Fill(Part), // a pulled register
    Apply,
    Mask,
    Status, // PLP
    Sign, // PLB
    DirectLow, // PLD
    DirectHigh,
    MoveByte,
}

// Where a cycle leads.
#[derive(Clone, Copy)]
pub enum To {
    On, // the instruction's next cycle
    End, // the next instruction's start
    EndByte, // the same in the program bank that was read
    EndBank, // the same in the one that is held
    Taken, // on, if the branch is taken
    Crossed, // on, if it leads to another page
    Moved, // the end, or the move's next byte
}

// One cycle of a list: what it asks, what it does to PC, S and the scratch words, what to the registers, and where it leads.
#[derive(Clone, Copy)]
pub struct Cycle {
    pub ask: Ask,
    pub step: Move,
    pub change: Change,
    pub to: To,
}

#[derive(Clone, Copy)]
pub enum Micro {
    Refuse(Refusal),
    Fetch,
    Held(Ask, Move, Change, To, Operation),
}
