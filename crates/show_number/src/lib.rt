// Numbers for a person: floats as short decimals where there is one, GUIDs in their usual form.

#![tactic(auto)]

use bits::float::{Float32, Float64};
use std::io;
use wire::Guid;

// The sign's bit.
const SIGN_64: u64 = 9223372036854775808;

const SIGN_32: u32 = 2147483648;

// The bits without their sign, as a short decimal.
fn decimal64(size: u64) -> Option<(u64, u64)> {
    match Float64::from(size) {
        Float64::Value(x) => show_float::short64(x),
        Float64::Nan(_) => None,
    }
}

fn decimal32(size: u32) -> Option<(u64, u64)> {
    match Float32::from(size) {
        Float32::Value(x) => show_float::short32(x),
        Float32::Nan(_) => None,
    }
}

// A number over a power of ten: the whole part, the point, and as many digits as the power has zeros.
fn say_over(rt: &impl Print, n: u64, power: u64) -> io::Result<()> {
    if power < 2 {
        return print!(rt; "{n}");
    }
    let digits = power.ilog10() as usize;
    let (whole, rest) = (n / power, n % power);
    print!(rt; "{whole}.{rest:0digits$}")
}

// A float's decimal behind its sign, or its bits where none is short.
fn say_float(
    rt: &impl Print,
    negative: bool,
    decimal: Option<(u64, u64)>,
    bits: u64,
    digits: usize,
) -> io::Result<()> {
    let Some((n, power)) = decimal else {
        return print!(rt; "bits 0x{bits:0digits$x}");
    };
    if negative {
        print!(rt; "-")?;
    }
    say_over(rt, n, power)
}

// A float of 64 bits, by its bits.
pub fn say_float64(rt: &impl Print, bits: u64) -> io::Result<()> {
    let size = bits % SIGN_64;
    say_float(rt, size != bits, decimal64(size), bits, 16)
}

// A float of 32 bits, by its bits.
pub fn say_float32(rt: &impl Print, bits: u32) -> io::Result<()> {
    let size = bits % SIGN_32;
    say_float(rt, size != bits, decimal32(size), u64::from(bits), 8)
}

// A GUID in its usual form: 8, 4, 4, 4 and 12 digits.
pub fn say_guid(rt: &impl Print, g: Guid) -> io::Result<()> {
    let Guid { high, low } = g;
    let (first, second, third) = (high >> 32, high >> 16 & 0xffff, high & 0xffff);
    let (fourth, last) = (low >> 48, low & 0xffff_ffff_ffff);
    print!(rt; "{first:08x}-{second:04x}-{third:04x}-{fourth:04x}-{last:012x}")
}
