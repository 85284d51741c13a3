// guid, number.
use replay_say::fields::Fields;
use replay_say::say;
use std::io;
use wire::{Cursor, Guid, Width};
use words::Hex;

// Sixteen bytes in text order behind the op's number, written in wire order.
pub fn guid(rt: &impl Print, frame: Fields) -> io::Result<()> {
    let s = frame.rest();
    let Ok((high, c)) = (Cursor { at: 0 }).high(s, Width::Eight) else {
        return say::bad(rt);
    };
    let Ok((low, _)) = c.high(s, Width::Eight) else {
        return say::bad(rt);
    };
    let mut out = [0u8; 16];
    let _ = guid::write_guid(Guid { high, low }, &mut out); // sixteen bytes of room are enough
    println!(rt; "ok {}", Hex(&out))
}

pub fn number(rt: &impl Print, mut frame: Fields) -> io::Result<()> {
    let from = Cursor { at: frame.place() };
    let w = Width::try_from(frame.byte()).unwrap_or(Width::Eight);
    say::read(rt, from.low(frame.input(), w))
}
