// Single instructions, through `request` and `answer`.
use cpu::types::Record;
use drill::figure::{figure, native};

// P: M is 20, X 10, D 08, C 01.
pub fn decimal_sums(rt: &impl Print) {
    figure(
        rt,
        "decimal, 8 bit: 99 + 01, C 0",
        Record {
            a: 0x0099,
            ..native(0xF8)
        },
        b"\x69\x01",
    );
    figure(
        rt,
        "decimal, 16 bit: 9999 + 0001, C 0",
        Record {
            a: 0x9999,
            ..native(0x08)
        },
        b"\x69\x01\x00",
    );
}

pub fn decimal_bytes(rt: &impl Print) {
    figure(
        rt,
        "decimal, 8 bit: 00 - 01, C 1",
        native(0x79),
        b"\xE9\x01",
    );
    figure(
        rt,
        "decimal, 8 bit: 0F + 0F, C 1",
        Record {
            a: 0x000F,
            ..native(0x39)
        },
        b"\x69\x0F",
    );
}

pub fn binary(rt: &impl Print) {
    figure(
        rt,
        "binary, 8 bit: 7F + 01, C 0",
        Record {
            a: 0x007F,
            ..native(0x30)
        },
        b"\x69\x01",
    );
    figure(
        rt,
        "CMP 16 bit, 1234 with 1235",
        Record {
            a: 0x1234,
            ..native(0x03)
        },
        b"\xC9\x35\x12",
    );
}

pub fn exchange(rt: &impl Print) {
    figure(
        rt,
        "XBA on 8000",
        Record {
            a: 0x8000,
            ..native(0x32)
        },
        b"\xEB\x00\x00",
    );
}

// M and X unlike: the accumulator's width is M's.
pub fn widths(rt: &impl Print) {
    figure(
        rt,
        "LDA #, 16-bit accumulator, 8-bit index",
        native(0x10),
        b"\xA9\x34\x12",
    );
    figure(
        rt,
        "LDX #, 8-bit accumulator, 16-bit index",
        native(0x20),
        b"\xA2\x34\x12",
    );
}

// Carry set after the ADC is a wrap up, carry clear after the SBC a wrap down.
pub fn pairs(rt: &impl Print) {
    let start = Record {
        a: 0x0095,
        ..native(0x38)
    };
    let up = figure(
        rt,
        "pairs from 95: CLC, ADC #10",
        start,
        b"\x18\x00\x69\x10",
    );
    figure(rt, "then SEC, SBC #06", up, b"\x38\x00\xE9\x06");
}
