// Cycles and length of the instruction that starts with a byte.
ghost use Rattle.std.specs.Prelude.{◌≡◌, ◌≤◌, ◌<◌};
ghost use Rattle.cycles.specs.Cycles.{unaligned};
ghost use Rattle.opcodes.specs.Opcodes.{decode_of};
ghost use Rattle.tables.specs.Counts.{column_at, wide_at, count_at, length_at};

use decode::decode;
use flags::Flags;
use opcodes::operation::is_wide_operation;
use shapes::shape_of;
use words::choose;

// A row for each shape's number, from 0, which is no shape: cycles, cycles more where it is wide, cycles more where the
// low byte of D isn't 0, bytes, bytes more where it is wide. Document 01 asks for one constant table of numbers.
const COUNTS: [[u8; 5]; 31] = [
    [0, 0, 0, 0, 0], // not listed
    [2, 1, 0, 2, 1], // Immediate
    [4, 1, 0, 3, 0], // Absolute
    [3, 1, 1, 2, 0], // Direct
    [4, 1, 0, 3, 0], // StoreAbsolute
    [3, 1, 1, 2, 0], // StoreDirect
    [2, 0, 0, 1, 0], // Implied
    [3, 0, 0, 1, 0], // Xba
    [3, 0, 0, 2, 0], // Mask
    [2, 0, 0, 2, 0], // Wdm
    [3, 1, 0, 1, 0], // Push
    [4, 1, 0, 1, 0], // Pull
    [4, 0, 0, 1, 0], // PullP
    [4, 0, 0, 1, 0], // PullB
    [5, 0, 0, 1, 0], // PullD
    [5, 0, 0, 3, 0], // Pea
    [6, 0, 1, 2, 0], // Pei
    [6, 0, 0, 3, 0], // Per
    [3, 0, 0, 3, 0], // Jump
    [4, 0, 0, 4, 0], // JumpLong
    [5, 0, 0, 3, 0], // JumpIndirect
    [6, 0, 0, 3, 0], // JumpIndirectLong
    [6, 0, 0, 3, 0], // JumpIndexed
    [6, 0, 0, 3, 0], // Call
    [8, 0, 0, 3, 0], // CallIndexed
    [8, 0, 0, 4, 0], // CallLong
    [6, 0, 0, 1, 0], // Return
    [6, 0, 0, 1, 0], // ReturnLong
    [2, 0, 0, 2, 0], // Branch
    [4, 0, 0, 3, 0], // BranchLong
    [7, 0, 0, 3, 0], // Move
];

// A column of the row of a byte's shape.
fn entry(byte: u8, column: usize) -> u8
    requires { column < 5 }
    ensures value { result ≡ column_at column (decode_of byte) }
    ensures small { result ≤ 8 }
{
    COUNTS[shape_of(byte) as usize][column]
}

fn is_wide_opcode(byte: u8, f: Flags) -> bool
    ensures { result ≡ wide_at (decode_of byte) f }
{
    decode(byte).is_some_and(|(_, o)| is_wide_operation(o, f.memsel, f.indexsel))
}

fn is_unaligned(d: u16) -> bool
    ensures { result ≡ unaligned d }
{
    d % 256 != 0
}

// The cycles of the instruction that starts with a byte: a branch's when it isn't taken, a move's for each byte; 0 for a
// byte that isn't listed.
pub fn cycle_count(byte: u8, f: Flags, d: u16) -> u8
    ensures { result ≡ count_at (decode_of byte) f d }
{
    let w = is_wide_opcode(byte, f);
    let late = is_unaligned(d);
    let base = entry(byte, 0);
    let wider = choose(w, entry(byte, 1), 0);
    let later = choose(late, entry(byte, 2), 0);
    base + wider + later
}

// The length in bytes of the instruction that starts with a byte; 0 for a byte that isn't listed.
pub fn length_of(byte: u8, f: Flags) -> u8
    ensures { result ≡ length_at (decode_of byte) f }
{
    let w = is_wide_opcode(byte, f);
    let bytes = entry(byte, 3);
    let longer = choose(w, entry(byte, 4), 0);
    bytes + longer
}
