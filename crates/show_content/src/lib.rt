// Content for a person: bytes as hexadecimal digits, strings as text; long content is cut, and its
// length said.

#![tactic(auto)]

use std::io;
use wire::Refusal;
use words::Hex;

// How many bytes of content are shown.
const MOST_BYTES: usize = 24;

const MOST_TEXT: usize = 60;

// Content that was cut: how long it is.
fn say_length(rt: &impl Print, count: usize) -> io::Result<()> {
    print!(rt; ".. ({count} bytes)")
}

// Bytes, two digits each.
pub fn say_bytes(rt: &impl Print, s: &[u8]) -> io::Result<()> {
    if s.len() <= MOST_BYTES {
        return print!(rt; "0x{}", Hex(s));
    }
    let front = &s[..MOST_BYTES];
    print!(rt; "0x{}", Hex(front))?;
    say_length(rt, s.len())
}

// Does a letter begin here? All others are the later bytes of one.
fn begins(b: u8) -> bool {
    b < 128 || 192 <= b
}

// A byte that would move the cursor or ring the bell, as a letter of its own or as the second byte
// of one: U+0000 to U+001F, U+007F, U+0080 to U+009F.
fn moves(before: u8, b: u8) -> bool {
    b < 32 || b == 127 || (b < 160 && before == 0xC2)
}

// One byte of text. One that would move the cursor is shown by its digits.
fn say_letter(rt: &impl Print, before: u8, b: u8) -> io::Result<()> {
    if moves(before, b) {
        return print!(rt; "\\x{b:02x}");
    }
    rt.write_all(&[b])
}

// Text between quotes, as far as it is shown; whether that was all.
fn say_letters(rt: &impl Print, s: &[u8]) -> io::Result<bool> {
    let mut before: u8 = 0;
    for (i, b) in s.iter().enumerate() {
        if MOST_TEXT <= i && begins(*b) {
            return Ok(false);
        }
        say_letter(rt, before, *b)?;
        before = *b;
    }
    Ok(true)
}

// A string that was read, `count` bytes of UTF-16LE, by its UTF-8.
fn say_text(rt: &impl Print, s: &[u8], count: usize) -> io::Result<()> {
    print!(rt; "\"")?;
    let whole = say_letters(rt, s)?;
    print!(rt; "\"")?;
    if !whole {
        say_length(rt, count)?;
    }
    Ok(())
}

// A string that is no text, and why.
fn say_units(rt: &impl Print, e: Refusal, units: &[u8]) -> io::Result<()> {
    if e == Refusal::NotText {
        print!(rt; "no text, a surrogate is alone: ")?;
    }
    say_bytes(rt, units)
}

// A string that was read: its units, by their text where they have one.
pub fn say_string(rt: &impl Print, units: &[u8], room: &mut [u8]) -> io::Result<()> {
    let made = text::to_utf8(units, room);
    match made {
        Ok(n) => say_text(rt, &room[..n], units.len()),
        Err(e) => say_units(rt, e, units),
    }
}
