// The meter's ROM, assembled by hand: at each opcode its address and mnemonic. docs/ROM.md has the same bytes and says what they are for.
use dairy::yard::Memory;

pub const START: u16 = 0x8000;

pub const MOVE: u16 = 0x8043;

pub const STOP: u16 = 0x8057;

const ROM: [u8; 88] = [
    // Native mode, 16 bits, decimal; no total yet, S below the first sample, the log at the morning's page.
    0x18, // 8000 CLC
    0xFB, // 8001 XCE
    0xC2, // 8002 REP #30
    0x30, 0xF8, // 8004 SED
    0x64, // 8005 STZ 00
    0x00, 0x64, // 8007 STZ 04
    0x04, 0x64, // 8009 STZ 06
    0x06, 0xA2, // 800B LDX #2FFF
    0xFF, 0x2F, 0x9A, // 800E TXS
    0xA0, // 800F LDY #2000
    0x00, 0x20, 0x84, // 8012 STY 08
    0x08,
    // A delivery's key: a farm, 80 for the evening, 00 for the day's end.
    0xE2, // 8014 SEP #10
    0x10, 0xFA, // 8016 PLX
    0xF0, // 8017 BEQ 8057
    0x3E, 0x30, // 8019 BMI 804A
    0x2F, 0x86, // 801B STX 00
    0x00, 0xA9, // 801D LDA #0000
    0x00, 0x00,
    // A sample: a pulse adds a litre to A in decimal.
    0xFA, // 8020 PLX
    0xF0, // 8021 BEQ 8020
    0xFD, 0x30, // 8023 BMI 802B
    0x06, 0x18, // 8025 CLC
    0x69, // 8026 ADC #0001
    0x01, 0x00, 0x80, // 8029 BRA 8020
    0xF5,
    // The valve is closed: litres, and the day's total in two words.
    0x85, // 802B STA 02
    0x02, 0x18, // 802D CLC
    0x65, // 802E ADC 04
    0x04, 0x85, // 8030 STA 04
    0x04, 0xA5, // 8032 LDA 06
    0x06, 0x69, // 8034 ADC #0000
    0x00, 0x00, 0x85, // 8037 STA 06
    0x06,
    // The finished delivery, eight bytes, into the log; Y is then at the next entry.
    0xC2, // 8039 REP #10
    0x10, 0xA2, // 803B LDX #0000
    0x00, 0x00, 0xA4, // 803E LDY 08
    0x08, 0xA9, // 8040 LDA #0007
    0x07, 0x00, 0x54, // 8043 MVN 00,00
    0x00, 0x00, 0x84, // 8046 STY 08
    0x08, 0x80, // 8048 BRA 8014
    0xCA,
    // The evening's round has the next page.
    0xA2, // 804A LDX #01
    0x01, 0x86, // 804C STX 01
    0x01, 0xC2, // 804E REP #10
    0x10, 0xA0, // 8050 LDY #2100
    0x00, 0x21, 0x84, // 8053 STY 08
    0x08, 0x80, // 8055 BRA 8014
    0xBD,
    // The day is done.
    0xDB, // 8057 STP
];

pub fn put_rom(mem: &mut Memory) {
    mem[0x8000..0x8058].copy_from_slice(&ROM);
}
