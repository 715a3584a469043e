// What a cycle does to A, X, Y, D and the flags.
ghost use Rattle.std.specs.Prelude.{◌≡◌, false};
ghost use Rattle.flags.specs.Flags.{set_byte, set_nz};
ghost use Rattle.cpu.specs.Registers.{operates, pulls, set_flags};
ghost use Rattle.cpu.specs.Record.{regs_of};
ghost use Rattle.opcodes.specs.Opcodes.{alu_of, reg_of};
ghost use Rattle.act.specs.Act.{regs_after};

use cpu::change::{apply, direct, direct_low, masked, moved, operated, pulled};
use cpu::record::regs;
use cpu::registers::with_flags;
use cpu::types::{Part, Record, Regs};
use cycles::types::Change;
use opcodes::operation::{alu_of, flag_in, one_in, reg_of};
use opcodes::types::Operation;
use words::with_high;

fn operate(p: Part, o: Operation, r: Record, b: u8) -> Regs
    ensures { result ≡ operates (alu_of o) (reg_of o) p b (regs_of r) }
{
    operated(alu_of(o), reg_of(o), p, b, regs(r))
}

fn pull(p: Part, o: Operation, r: Record, b: u8) -> Regs
    ensures { result ≡ pulls (reg_of o) p b (regs_of r) }
{
    pulled(reg_of(o), p, b, regs(r))
}

fn status(r: Record, b: u8) -> Regs
    ensures { result ≡ set_flags (set_byte r.flags b) (regs_of r) }
{
    with_flags(r.flags.set(b), regs(r))
}

fn sign(r: Record, b: u8) -> Regs
    ensures { result ≡ set_flags (set_nz r.flags b false) (regs_of r) }
{
    with_flags(r.flags.set_nz(b as u16, false), regs(r))
}

pub fn regs_after(c: Change, o: Operation, r: Record, b: u8) -> Regs
    ensures { result ≡ regs_after c o r b }
{
    match c {
        Change::Keep => regs(r),
        Change::Operate(p) => operate(p, o, r, b),
        Change::Fill(p) => pull(p, o, r, b),
        Change::Apply => apply(one_in(o), r.s, regs(r)),
        Change::Mask => masked(flag_in(o), b, regs(r)),
        Change::Status => status(r, b),
        Change::Sign => sign(r, b),
        Change::DirectLow => direct_low(b, regs(r)),
        Change::DirectHigh => direct(with_high(r.d, b), regs(r)),
        Change::MoveByte => moved(flag_in(o), regs(r)),
    }
}
