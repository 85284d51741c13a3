// The words of a value that was read.

#![tactic(auto)]

use bits::float::{Float32, Float64};
use replay_say::say;
use replay_say::say::{Bytes, TextOrder};
use std::{fmt, io};
use value_found::{Found, Stand};
use value_kind::{Scalar, Span};

// The kind and the value; a float's bits.
#[derive(Clone, Copy)]
struct ScalarWords(Scalar);

impl fmt::Display for ScalarWords {
    fn fmt<W: fmt::Write>(&self, f: &mut fmt::Formatter<W>) -> fmt::Result {
        match self.0 {
            Scalar::Bit(b) => write!(f, "bit {}", u8::from(b)),
            Scalar::U8(n) => write!(f, "u8 {n}"),
            Scalar::I16(n) => write!(f, "i16 {n}"),
            Scalar::I32(n) => write!(f, "i32 {n}"),
            Scalar::I64(n) => write!(f, "i64 {n}"),
            Scalar::F32(x) => write!(f, "f32 {}", u32::from(Float32::Value(x))),
            Scalar::F32Nan(n) => write!(f, "f32 {n}"),
            Scalar::F64(x) => write!(f, "f64 {}", u64::from(Float64::Value(x))),
            Scalar::F64Nan(n) => write!(f, "f64 {n}"),
            Scalar::Guid(g) => write!(f, "guid {}", TextOrder(g)),
        }
    }
}

// A part of some bytes, by its start and count, and its content.
#[derive(Clone, Copy)]
struct PartWords<'a> {
    s: &'a [u8],
    part: Span,
}

impl fmt::Display for PartWords<'_> {
    fn fmt<W: fmt::Write>(&self, f: &mut fmt::Formatter<W>) -> fmt::Result {
        let Span { start, count } = self.part;
        write!(f, "{start} {count}")?;
        let Some((_, behind)) = self.s.split_at_checked(start) else {
            return Ok(());
        };
        match behind.split_at_checked(count) {
            Some((content, _)) => write!(f, " {}", Bytes(content)),
            None => Ok(()),
        }
    }
}

// A value that was read: from `s`, with the room that it was read into.
#[derive(Clone, Copy)]
pub struct Words<'a> {
    pub found: Found,
    pub s: &'a [u8],
    pub room: &'a [u8],
}

impl Words<'_> {
    // Content where it stands.
    fn content<W: fmt::Write>(&self, f: &mut fmt::Formatter<W>, stand: Stand) -> fmt::Result {
        match stand {
            Stand::Input(part) => write!(f, "in {}", PartWords { s: self.s, part }),
            Stand::Room(part) => write!(f, "out {}", PartWords { s: self.room, part }),
        }
    }
}

impl fmt::Display for Words<'_> {
    fn fmt<W: fmt::Write>(&self, f: &mut fmt::Formatter<W>) -> fmt::Result {
        match self.found {
            Found::Null => f.write_str("null"),
            Found::Scalar(v) => write!(f, "{}", ScalarWords(v)),
            Found::Binary(stand) => {
                write!(f, "binary ")?;
                self.content(f, stand)
            }
            Found::String(stand) => {
                write!(f, "string ")?;
                self.content(f, stand)
            }
        }
    }
}

// The same words, the bytes past `print!`, which is slow where they are many: first those of a part.
fn show_part(rt: &impl Print, s: &[u8], part: Span) -> io::Result<()> {
    let Span { start, count } = part;
    print!(rt; "{start} {count}")?;
    let Some((_, behind)) = s.split_at_checked(start) else {
        return Ok(());
    };
    let Some((content, _)) = behind.split_at_checked(count) else {
        return Ok(());
    };
    print!(rt; " ")?;
    say::bytes(rt, content)
}

// Content where it stands.
fn show_content(rt: &impl Print, stand: Stand, s: &[u8], room: &[u8]) -> io::Result<()> {
    match stand {
        Stand::Input(part) => {
            print!(rt; "in ")?;
            show_part(rt, s, part)
        }
        Stand::Room(part) => {
            print!(rt; "out ")?;
            show_part(rt, room, part)
        }
    }
}

// The words of a value.
pub fn show(rt: &impl Print, found: Found, s: &[u8], room: &[u8]) -> io::Result<()> {
    match found {
        Found::Null => print!(rt; "null"),
        Found::Scalar(v) => print!(rt; "{}", ScalarWords(v)),
        Found::Binary(stand) => {
            print!(rt; "binary ")?;
            show_content(rt, stand, s, room)
        }
        Found::String(stand) => {
            print!(rt; "string ")?;
            show_content(rt, stand, s, room)
        }
    }
}

#[cfg(test)]
mod tests {
    use super::*;
    use replay_say::say::Written;
    use std::fmt::Write;

    // A writer that takes what it expects, and nothing else.
    #[derive(Drop)]
    struct Expects<'a>(&'a [u8]);

    impl fmt::Write for Expects<'_> {
        fn write_str(&mut self, s: &str) -> fmt::Result {
            self.0 = self.0.strip_prefix(s.as_bytes()).ok_or(fmt::Error)?;
            Ok(())
        }
    }

    // What is shown is these words, whole.
    fn says<T: fmt::Display + Copy>(shown: T, words: &str) -> bool {
        let mut line = Expects(words.as_bytes());
        write!(line, "{shown}").is_ok() && line.0.is_empty()
    }

    #[test]
    fn words_of_a_room(rt: HostRuntime) {
        let room = &[0x01, 0xAB, 0xA5, 0x00];
        assert!(rt; says(Bytes(&[]), "-"));
        assert!(rt; says(Bytes(&room[..2]), "01ab"));
        for (count, words) in [(2, "2 01ab changed 1"), (0, "0 - changed 3"), (5, "5")] {
            assert!(rt; says(Written { room, count }, words), "{words}");
        }
    }

    #[test]
    fn words_of_a_value(rt: HostRuntime) {
        let (s, room) = (&[0x01, 0x02, 0x03], &[0xFE, 0xFF]);
        let two = Span { start: 1, count: 2 };
        let cases = [
            (Found::Null, "null"),
            (Found::Scalar(Scalar::I16(-2)), "i16 -2"),
            (Found::Binary(Stand::Input(two)), "binary in 1 2 0203"),
            (
                Found::Binary(Stand::Input(Span { start: 3, count: 0 })),
                "binary in 3 0 -",
            ),
            (
                Found::String(Stand::Room(Span { start: 0, count: 2 })),
                "string out 0 2 feff",
            ),
            (Found::String(Stand::Room(two)), "string out 1 2"),
            (
                Found::String(Stand::Room(Span { start: 9, count: 0 })),
                "string out 9 0",
            ),
        ];
        for (found, words) in cases {
            assert!(rt; says(Words { found, s, room }, words), "{words}");
        }
    }
}
