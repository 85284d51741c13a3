// The words of an answer's line.
ghost use Rattle.std.specs.Prelude.{◌≡◌, length};
ghost use Rattle.replay_say.specs.Room.{filled, changed_in};

pub use crate::shown::{Bytes, Written};
use std::{fmt, io};
use wire::{Cursor, Guid, Refusal};

const FILLER: u8 = 0xA5;

// The word `Bytes`, past `print!`, which is slow where the bytes are many.
pub fn bytes(rt: &impl Print, s: &[u8]) -> io::Result<()> {
    if s.is_empty() {
        return print!(rt; "-");
    }
    words::write_hex(rt, s)
}

// A GUID's bytes in text order.
#[derive(Clone, Copy)]
pub struct TextOrder(pub Guid);

impl fmt::Display for TextOrder {
    fn fmt<W: fmt::Write>(&self, f: &mut fmt::Formatter<W>) -> fmt::Result {
        write!(f, "{:016x}{:016x}", self.0.high, self.0.low)
    }
}

pub fn bad(rt: &impl Print) -> io::Result<()> {
    println!(rt; "bad")
}

// The room before a call.
pub fn fill(room: &mut [u8])
    ensures { room.new ≡ filled (length room.old) }
{
    room.fill(FILLER);
}

// How many bytes are not the filler.
pub(crate) fn changed(room: &[u8]) -> usize
    ensures { result ≡ changed_in room.now }
{
    room.iter().filter(|b| **b != FILLER).count()
}

// The end of a line: the words `Written`, the bytes past `print!`.
pub fn written(rt: &impl Print, room: &[u8], count: usize) -> io::Result<()> {
    match room.split_at_checked(count) {
        Some((front, rest)) => {
            print!(rt; " {count} ")?;
            bytes(rt, front)?;
            println!(rt; " changed {}", changed(rest))
        }
        None => println!(rt; " {count}"),
    }
}

pub fn no(rt: &impl Print, e: Refusal) -> io::Result<()> {
    println!(rt; "no {}", e.number())
}

// What a read answered: the place behind it and its words, or the refusal.
pub fn read<T: fmt::Display + Drop>(
    rt: &impl Print,
    answer: Result<(T, Cursor), Refusal>,
) -> io::Result<()> {
    match answer {
        Ok((words, next)) => println!(rt; "ok {} {words}", next.at),
        Err(e) => no(rt, e),
    }
}

// A refusal by a call that was lent a room.
pub fn refused(rt: &impl Print, e: Refusal, room: &[u8]) -> io::Result<()> {
    println!(rt; "no {} changed {}", e.number(), changed(room))
}

// What a writer answered, and the room that it was lent.
pub fn wrote(rt: &impl Print, answer: Result<usize, Refusal>, room: &[u8]) -> io::Result<()> {
    match answer {
        Ok(count) => {
            print!(rt; "ok")?;
            written(rt, room, count)
        }
        Err(e) => refused(rt, e, room),
    }
}
