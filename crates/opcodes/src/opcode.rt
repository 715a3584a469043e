// The opcode byte.
ghost use Rattle.std.specs.Prelude.{◌≡◌};
ghost use Rattle.opcodes.specs.Opcodes.{decode_of, is_listed};
ghost use Rattle.opcodes.specs.Listed.{row_of};

// A bit for each byte that is listed, 64 to a row, the lowest byte's last.
fn row(n: u8) -> u64
    ensures { result ≡ row_of n }
{
    match n {
        0 => 0x0D01_3F35_0D01_2F20,
        1 => 0x1D01_3F35_1D11_3F34,
        2 => 0x0D01_7F75_1D01_7F75,
        _ => 0x1D11_3F35_1511_3735,
    }
}

// Whether a byte is listed, for the fetch. `herdbook::entry` would do, but a second call of it would keep both from being inlined.
pub fn listed(op: u8) -> bool
    ensures { result ≡ is_listed (decode_of op) }
{
    (row(op / 64) >> (op % 64)) % 2 == 1
}
