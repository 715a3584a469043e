// One byte of ADC and of SBC, binary and decimal: the crate's `adc_bcd` and the body of its `sbc`.
#![tactic(auto)]

ghost use Rattle.std.specs.Prelude.{◌≡◌, ◌<◌};
ghost use Rattle.adder.specs.Adder.{plain, half, overflow, add_six, add_sixty, take_six, take_sixty, adc_binary, adc_decimal, sbc_decimal, adc_of, sbc_of};

use words::{both, either, low, one_if};

#[derive(Clone, Copy)]
pub struct Sum {
    pub byte: u8,
    pub carry: bool,
    pub overflow: bool,
}

fn binary_sum(a: u8, b: u8, c: bool) -> u16
    ensures value { result ≡ plain a b c }
    ensures small { result < 512 }
{
    (a as u16) + (b as u16) + (one_if(c) as u16)
}

fn half_carry(a: u8, b: u8, c: bool) -> bool
    ensures { result ≡ half a b c }
{
    a % 16 + b % 16 + one_if(c) > 15
}

// Two bytes of one sign whose sum has the other.
fn overflows(a: u8, b: u8, s: u16) -> bool
    ensures { result ≡ overflow a b s }
{
    let negative = a >= 128;
    both(negative == (b >= 128), negative != (s % 256 >= 128))
}

// ADC's first correction, of the low digit.
fn add_six(half: bool, above: bool, s: u16) -> u16
    requires { s < 512 }
    ensures value { result ≡ add_six half above s }
    ensures small { result < 518 }
{
    match (half, above) {
        (true, true) => s / 16 * 16 + (s % 16 + 6) % 16,
        (false, false) => s,
        _ => s + 6,
    }
}

// ADC's last correction, of the high digit.
fn add_sixty(s: u16) -> u16
    requires { s < 518 }
    ensures { result ≡ add_sixty s }
{
    let over = either(s > 255, s / 16 % 16 > 9);
    if over { s + 0x60 } else { s }
}

// SBC's corrections, each of one digit alone.
fn take_six(half: bool, s: u8) -> u8
    ensures { result ≡ take_six half s }
{
    if half {
        s
    } else {
        s / 16 * 16 + (s % 16 + 10) % 16
    }
}

fn take_sixty(borrow: bool, s: u8) -> u8
    ensures { result ≡ take_sixty borrow s }
{
    if borrow {
        (s / 16 + 10) % 16 * 16 + s % 16
    } else {
        s
    }
}

// A byte of binary ADC.
#[tactic(auto, unfolding(crate::specs::Adder::adc_binary))]
pub fn adc_binary(a: u8, b: u8, c: bool) -> Sum
    ensures { result ≡ adc_binary a b c }
{
    let s = binary_sum(a, b, c);
    Sum {
        byte: low(s),
        carry: s > 255,
        overflow: overflows(a, b, s),
    }
}

// A byte of decimal ADC, for digits and for what is no digit.
#[tactic(auto, unfolding(crate::specs::Adder::adc_decimal))]
pub fn adc_bcd(a: u8, b: u8, c: bool) -> Sum
    ensures { result ≡ adc_decimal a b c }
{
    let s = binary_sum(a, b, c);
    let h = half_carry(a, b, c);
    let first = add_six(h, s % 16 > 9, s);
    let last = add_sixty(first);
    Sum {
        byte: low(last),
        carry: last > 255,
        overflow: overflows(a, b, first),
    }
}

// A byte of decimal SBC, for digits and for what is no digit.
#[tactic(auto, unfolding(crate::specs::Adder::sbc_decimal))]
pub fn sbc_bcd(a: u8, b: u8, c: bool) -> Sum
    ensures { result ≡ sbc_decimal a b c }
{
    let n = 255 - b;
    let s = adc_binary(a, n, c);
    let units = take_six(half_carry(a, n, c), s.byte);
    Sum {
        byte: take_sixty(!s.carry, units),
        ..s
    }
}

// A byte of ADC.
#[tactic(auto, unfolding(crate::specs::Adder::adc_of))]
pub fn adc(decimal: bool, a: u8, b: u8, c: bool) -> Sum
    ensures { result ≡ adc_of decimal a b c }
{
    if decimal {
        adc_bcd(a, b, c)
    } else {
        adc_binary(a, b, c)
    }
}

// A byte of SBC.
#[tactic(auto, unfolding(crate::specs::Adder::sbc_of))]
pub fn sbc(decimal: bool, a: u8, b: u8, c: bool) -> Sum
    ensures { result ≡ sbc_of decimal a b c }
{
    if decimal {
        sbc_bcd(a, b, c)
    } else {
        adc_binary(a, 255 - b, c)
    }
}
