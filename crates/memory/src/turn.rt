// The byte is known, and the answer, before anything is stored: a refused cycle leaves the memory as it was.
ghost use Rattle.std.specs.Prelude.{◌≡◌, ◌<◌, length};
ghost use Rattle.cycles.specs.declared.types.Micro.TheVariants.{Fetch, Held};
ghost use Rattle.memory.specs.Turns.{bus_byte, crossed, refusal_of, store_line, stopped_by, store_of, turn_by};

use act::arrive::act;
use bus::{ask, code, read};
use cpu::types::{Kind, Record, Refusal, Request};
use cycles::types::{Ask, Change, Micro, Move, To};
use opcodes::types::Operation;
use step::begin;

// The byte that goes over the bus.
fn bus_byte(q: Request, mem: &[u8]) -> u8
    requires { q.addr < length mem.now }
    ensures { result ≡ bus_byte q mem.now }
{
    if q.write {
        q.byte
    } else {
        mem[q.addr as usize]
    }
}

// A request with that byte: a line of a trace.
fn line(q: Request, byte: u8) -> Request
    ensures { result ≡ crossed q byte }
{
    Request { byte, ..q }
}

fn refusal(a: Result<Record, Refusal>) -> Refusal
    ensures { result ≡ refusal_of a }
{
    match a {
        Ok(_) => Refusal::NoCycle,
        Err(n) => n,
    }
}

fn store(l: Request, mem: &mut [u8])
    requires { l.addr < length mem.old }
    ensures { mem.new ≡ store_line l mem.old }
{
    if l.write {
        mem[l.addr as usize] = l.byte;
    }
}

// The cycle that fetches an opcode.
fn fetch(r: Record, mem: &[u8]) -> Result<(Request, Record), Refusal>
    ensures { result ≡ turn_by Fetch r mem.now }
{
    let p = code(r);
    if mem.len() <= p as usize {
        return Err(Refusal::Bank);
    }
    let byte = mem[p as usize];
    let answer = begin(r, byte);
    let Ok(next) = answer else {
        return Err(refusal(answer));
    };
    Ok((line(read(Kind::Opcode, p), byte), next))
}

// The cycle of a held opcode. What it does is handed over in its parts, which the compiler then keeps apart.
fn carry_out(
    q: Ask,
    k: Move,
    c: Change,
    d: To,
    o: Operation,
    r: Record,
    mem: &mut [u8],
) -> Result<(Request, Record), Refusal>
    ensures { (result ≡ turn_by (Held q k c d o) r mem.old) × (mem.new ≡ store_of result mem.old) }
{
    let asked = ask(q, o, r);
    if mem.len() <= asked.addr as usize {
        return Err(Refusal::Bank);
    }
    let l = line(asked, bus_byte(asked, mem));
    let next = act(k, c, d, o, r, l.byte);
    store(l, mem);
    Ok((l, next))
}

// One cycle of what `m` says; 7 where it asks outside the memory. Runs lend 65,536 bytes, which stand for bank 0.
pub fn turn(m: Micro, r: Record, mem: &mut [u8]) -> Result<(Request, Record), Refusal>
    ensures { (result ≡ turn_by m r mem.old) × (mem.new ≡ store_of result mem.old) }
{
    match m {
        Micro::Refuse(n) => Err(n),
        Micro::Fetch => fetch(r, mem),
        Micro::Held(q, k, c, d, o) => carry_out(q, k, c, d, o, r, mem),
    }
}

// Document 01's number of a turn: 0, or its refusal's.
pub fn refused_by(t: Result<(Request, Record), Refusal>) -> u8
    ensures { result ≡ stopped_by t }
{
    match t {
        Ok(_) => 0,
        Err(n) => u8::from(n),
    }
}
