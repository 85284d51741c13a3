// A value that was read, for a person.

#![tactic(auto)]

use bits::float::{Float32, Float64};
use std::io;
use value_found::{Found, Stand};
use value_kind::Scalar;

fn say_scalar(rt: &impl Print, v: Scalar) -> io::Result<()> {
    match v {
        Scalar::Bit(b) => print!(rt; "{}", u8::from(b)),
        Scalar::U8(n) => print!(rt; "{n}"),
        Scalar::I16(n) => print!(rt; "{n}"),
        Scalar::I32(n) => print!(rt; "{n}"),
        Scalar::I64(n) => print!(rt; "{n}"),
        Scalar::F32(x) => show_number::say_float32(rt, u32::from(Float32::Value(x))),
        Scalar::F32Nan(n) => show_number::say_float32(rt, n),
        Scalar::F64(x) => show_number::say_float64(rt, u64::from(Float64::Value(x))),
        Scalar::F64Nan(n) => show_number::say_float64(rt, n),
        Scalar::Guid(g) => show_number::say_guid(rt, g),
    }
}

// Content where it stands.
fn content<'a>(stand: Stand, s: &'a [u8], joined: &'a [u8]) -> &'a [u8] {
    match stand {
        Stand::Input(span) => value_part::handed_back(s, span.start, span.count),
        Stand::Room(span) => value_part::handed_back(joined, span.start, span.count),
    }
}

// A value of the input; `joined` is the room that the row was read into, `room` one for text.
pub fn say_found(
    rt: &impl Print,
    found: Found,
    s: &[u8],
    joined: &[u8],
    room: &mut [u8],
) -> io::Result<()> {
    match found {
        Found::Null => print!(rt; "null"),
        Found::Scalar(v) => say_scalar(rt, v),
        Found::Binary(stand) => show_content::say_bytes(rt, content(stand, s, joined)),
        Found::String(stand) => show_content::say_string(rt, content(stand, s, joined), room),
    }
}
