// value_write, untyped_write, and a value's 17 bytes in a frame.

#![tactic(auto)]

use bits::float::{Float32, Float64};
use replay_say::fields::Fields;
use replay_say::say;
use std::io;
use value_kind::{Scalar, Span, Value};
use wire::Guid;

// A part of the input by its two numbers.
fn span(start: [u8; 8], count: [u8; 8]) -> Span {
    Span {
        start: usize::from_le_bytes(start),
        count: usize::from_le_bytes(count),
    }
}

// A value of a fixed width by its number, cut to the kind's width.
fn scalar(kind: u8, number: [u8; 8]) -> Scalar {
    let [a, b, c, d, ..] = number;
    match kind {
        1 => Scalar::Bit(u64::from_le_bytes(number) != 0),
        2 => Scalar::U8(a),
        3 => Scalar::I16(i16::from_le_bytes([a, b])),
        4 => Scalar::I32(i32::from_le_bytes([a, b, c, d])),
        5 => Scalar::I64(i64::from_le_bytes(number)),
        6 => Scalar::from(Float32::from(u32::from_le_bytes([a, b, c, d]))),
        _ => Scalar::from(Float64::from(u64::from_le_bytes(number))),
    }
}

// The value that a frame has next: its kind, and sixteen bytes by the kind.
pub fn value(frame: &mut Fields) -> Value {
    let kind = frame.byte();
    let first = frame.bytes();
    let second = frame.bytes();
    match kind {
        0 => Value::Null,
        8 => Value::Scalar(Scalar::Guid(Guid {
            high: u64::from_be_bytes(first),
            low: u64::from_be_bytes(second),
        })),
        9 => Value::Binary(span(first, second)),
        10 => Value::String(span(first, second)),
        _ => Value::Scalar(scalar(kind, first)),
    }
}

pub fn value_write(rt: &impl Print, mut frame: Fields, room: &mut [u8]) -> io::Result<()> {
    let room = frame.room(room);
    let c = replay_type::column(&mut frame);
    let v = value(&mut frame);
    let answer = value_write::write_value(c, v, frame.input(), room);
    say::wrote(rt, answer, room)
}

pub fn untyped_write(rt: &impl Print, mut frame: Fields, room: &mut [u8]) -> io::Result<()> {
    let room = frame.room(room);
    let v = value(&mut frame);
    let answer = untyped_write::write_untyped(v, frame.input(), room);
    say::wrote(rt, answer, room)
}
