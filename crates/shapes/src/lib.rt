// The shape of each byte.
#![tactic(auto)]

ghost use Rattle.std.specs.Prelude.{◌≡◌, ◌<◌};
ghost use Rattle.opcodes.specs.Opcodes.{decode_of};
ghost use Rattle.shapes.specs.Shapes.{shape_number};

// For each byte the number of its shape, in the order of the enum Shape; 0 where it isn't listed. Numbers and no `Option<Shape>`,
// since document 01 asks for a const [u8; 256].
const SHAPES: [u8; 256] = [
    0, 0, 0, 0, 0, 3, // 05 ORA
    0, 0, 10, // 08 PHP
    1, // 09 ORA
    6, // 0A ASL
    10, // 0B PHD
    0, 2, // 0D ORA
    0, 0, 28, // 10 BPL
    0, 0, 0, 0, 0, 0, 0, 6, // 18 CLC
    0, 6, // 1A INC
    6, // 1B TCS
    0, 0, 0, 0, 23, // 20 JSR
    0, 25, // 22 JSL
    0, 3, // 24 BIT
    3, // 25 AND
    0, 0, 12, // 28 PLP
    1, // 29 AND
    6, // 2A ROL
    14, // 2B PLD
    2, // 2C BIT
    2, // 2D AND
    0, 0, 28, // 30 BMI
    0, 0, 0, 0, 0, 0, 0, 6, // 38 SEC
    0, 6, // 3A DEC
    6, // 3B TSC
    0, 0, 0, 0, 0, 0, 9, // 42 WDM
    0, 30, // 44 MVP
    3, // 45 EOR
    0, 0, 10, // 48 PHA
    1, // 49 EOR
    6, // 4A LSR
    10, // 4B PHK
    18, // 4C JMP
    2, // 4D EOR
    0, 0, 28, // 50 BVC
    0, 0, 0, 30, // 54 MVN
    0, 0, 0, 6, // 58 CLI
    0, 10, // 5A PHY
    6, // 5B TCD
    19, // 5C JMP
    0, 0, 0, 26, // 60 RTS
    0, 17, // 62 PER
    0, 5, // 64 STZ
    3, // 65 ADC
    0, 0, 11, // 68 PLA
    1, // 69 ADC
    6, // 6A ROR
    27, // 6B RTL
    20, // 6C JMP
    2, // 6D ADC
    0, 0, 28, // 70 BVS
    0, 0, 0, 0, 0, 0, 0, 6, // 78 SEI
    0, 11, // 7A PLY
    6, // 7B TDC
    22, // 7C JMP
    0, 0, 0, 28, // 80 BRA
    0, 29, // 82 BRL
    0, 5, // 84 STY
    5, // 85 STA
    5, // 86 STX
    0, 6, // 88 DEY
    1, // 89 BIT
    6, // 8A TXA
    10, // 8B PHB
    4, // 8C STY
    4, // 8D STA
    4, // 8E STX
    0, 28, // 90 BCC
    0, 0, 0, 0, 0, 0, 0, 6, // 98 TYA
    0, 6, // 9A TXS
    6, // 9B TXY
    4, // 9C STZ
    0, 0, 0, 1, // A0 LDY
    0, 1, // A2 LDX
    0, 3, // A4 LDY
    3, // A5 LDA
    3, // A6 LDX
    0, 6, // A8 TAY
    1, // A9 LDA
    6, // AA TAX
    13, // AB PLB
    2, // AC LDY
    2, // AD LDA
    2, // AE LDX
    0, 28, // B0 BCS
    0, 0, 0, 0, 0, 0, 0, 6, // B8 CLV
    0, 6, // BA TSX
    6, // BB TYX
    0, 0, 0, 0, 1, // C0 CPY
    0, 8, // C2 REP
    0, 3, // C4 CPY
    3, // C5 CMP
    0, 0, 6, // C8 INY
    1, // C9 CMP
    6, // CA DEX
    0, 2, // CC CPY
    2, // CD CMP
    0, 0, 28, // D0 BNE
    0, 0, 0, 16, // D4 PEI
    0, 0, 0, 6, // D8 CLD
    0, 10, // DA PHX
    0, 21, // DC JMP
    0, 0, 0, 1, // E0 CPX
    0, 8, // E2 SEP
    0, 3, // E4 CPX
    3, // E5 SBC
    0, 0, 6, // E8 INX
    1, // E9 SBC
    6, // EA NOP
    7, // EB XBA
    2, // EC CPX
    2, // ED SBC
    0, 0, 28, // F0 BEQ
    0, 0, 0, 15, // F4 PEA
    0, 0, 0, 6, // F8 SED
    0, 11, // FA PLX
    6, // FB XCE
    24, // FC JSR
    0, 0, 0,
];

// The number of a byte's shape, 0 where it isn't listed.
pub fn shape_of(byte: u8) -> u8
    ensures value { result ≡ shape_number (decode_of byte) }
    ensures small { result < 31 }
{
    SHAPES[byte as usize]
}
