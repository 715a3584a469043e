// A byte of a block move that is under way, at a call over a memory that stands for bank 0: what its seven cycles come to.
#![tactic(auto)]

ghost use Rattle.std.specs.Prelude.{◌≡◌, ◌<◌, eqb, length, get_or, set};
ghost use Rattle.words.specs.Words.{pick, low_of};
ghost use Rattle.stride.specs.Strides.{stretch};
ghost use Rattle.haul.specs.Hauls.{near, between, hauled, carried, hauls, haul_of, haul_mem};

use cpu::change::moved;
use cpu::record::{finished, regs};
use cpu::types::Record;
use stride::stride::stretch_of;
use stride::types::Stretch;
use words::{both, choose, down, either, up};

// PC, X and Y lie inside the memory: so much is known of words that are handed over, and the law asks for it.
fn words_inside(pc: u16, x: u16, y: u16)
    ensures { (pc < 65536) × (x < 65536) × (y < 65536) }
{}

// Whether a move stays in bank 0.
fn is_near(r: Record, mem: &[u8; 65536]) -> bool
    ensures { result ≡ near r mem.now }
{
    both(mem[up(r.pc) as usize] == 0, mem[up(up(r.pc)) as usize] == 0)
}

fn carry_if(near: bool, x: u16, y: u16, mem: &mut [u8; 65536])
    ensures { mem.new ≡ pick near (set mem.old y (low_of (get_or mem.old x 0))) mem.old }
{
    if near {
        mem[y as usize] = mem[x as usize];
    }
}

fn is_between(r: Record) -> bool
    ensures { result ≡ between r }
{
    both(
        both(r.pbr == 0, r.held),
        both(either(r.ir == 0x54, r.ir == 0x44), r.tcu == 0),
    )
}

fn hauled_to(r: Record) -> Record
    ensures { result ≡ hauled (eqb r.ir 0x54) r }
{
    let last = down(r.a) == 0xFFFF;
    let g = moved(r.ir == 0x54, regs(r));
    finished(
        r.ir,
        !last,
        0,
        choose(last, up(up(up(r.pc))), r.pc),
        r.s,
        0,
        g,
    )
}

fn haul_to(go: bool, r: Record) -> Stretch
    ensures { result ≡ pick go (stretch 7 (hauled (eqb r.ir 0x54) r)) (stretch 0 r) }
{
    if go {
        stretch_of(7, hauled_to(r))
    } else {
        stretch_of(0, r)
    }
}

fn haul_in(r: Record, mem: &mut [u8; 65536]) -> Stretch
    ensures { (result ≡ pick (hauls r mem.old) (stretch 7 (hauled (eqb r.ir 0x54) r)) (stretch 0 r)) × (mem.new ≡ pick (hauls r mem.old) (carried r mem.old) mem.old) }
{
    let go = both(is_between(r), is_near(r, mem));
    carry_if(go, r.x, r.y, mem);
    haul_to(go, r)
}

// A byte of a move that is under way; none where there is no such move, or it leaves bank 0.
pub fn haul(r: Record, mem: &mut [u8]) -> Stretch
    ensures value { (result ≡ haul_of r mem.old) × (mem.new ≡ haul_mem r mem.old) }
    ensures inside { (r.pc < 65536) × (r.x < 65536) × (r.y < 65536) }
{
    words_inside(r.pc, r.x, r.y);
    let Some(whole) = mem.as_mut_array::<65536>() else {
        return stretch_of(0, r);
    };
    haul_in(r, whole)
}
