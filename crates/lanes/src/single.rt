// Single instructions, through `request` and `answer`.
use cpu::types::Record;
use drill::figure::{emulated, figure, native};

// P: M is 20, X 10.
pub fn long_branch(rt: &impl Print) {
    figure(
        rt,
        "BRL at 0000, displacement FFFD",
        Record {
            pc: 0x0000,
            ..native(0x30)
        },
        b"\x82\xFD\xFF\x00",
    );
}

pub fn across_a_page(rt: &impl Print) {
    figure(
        rt,
        "BRA at 80FD, displacement 01, emulation",
        Record {
            pc: 0x80FD,
            ..emulated(0x30)
        },
        b"\x80\x01\x00\x00",
    );
    figure(
        rt,
        "BRA at 80FD, displacement 01, native",
        Record {
            pc: 0x80FD,
            ..native(0x30)
        },
        b"\x80\x01\x00",
    );
}

pub fn inside_a_page(rt: &impl Print) {
    figure(
        rt,
        "BRA at 80FC, displacement 01, emulation",
        Record {
            pc: 0x80FC,
            ..emulated(0x30)
        },
        b"\x80\x01\x00",
    );
    figure(
        rt,
        "BRA at 80FC, displacement 01, native",
        Record {
            pc: 0x80FC,
            ..native(0x30)
        },
        b"\x80\x01\x00",
    );
}

pub fn returns(rt: &impl Print) {
    figure(
        rt,
        "RTL, emulation, S 01FE",
        Record {
            s: 0x01FE,
            ..emulated(0x30)
        },
        b"\x6B\x00\x00\x34\x12\x00",
    );
    figure(
        rt,
        "RTS, emulation, S 01FE",
        Record {
            s: 0x01FE,
            ..emulated(0x30)
        },
        b"\x60\x00\x00\x34\x12\x00",
    );
}

pub fn addresses(rt: &impl Print) {
    figure(
        rt,
        "LDA absolute 16 bit, DBR 01, FFFF",
        Record {
            dbr: 1,
            ..native(0x00)
        },
        b"\xAD\xFF\xFF\x78\x56",
    );
    figure(
        rt,
        "BIT immediate C0, A 3F, 8 bit, N and V set",
        Record {
            a: 0x003F,
            ..native(0xF0)
        },
        b"\x89\xC0",
    );
    figure(rt, "JMP (FFFF)", native(0x30), b"\x6C\xFF\xFF\x34\x12");
}

pub fn refused(rt: &impl Print) {
    figure(rt, "an opcode that isn't listed", native(0x30), b"\x00");
    figure(
        rt,
        "a record that isn't well formed: emulation, S 0200",
        Record {
            s: 0x0200,
            ..emulated(0x30)
        },
        b"\xEA",
    );
}
