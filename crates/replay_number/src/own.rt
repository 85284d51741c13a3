// The ops that are the project's own: guid_read, self_test.
use replay_say::fields::Fields;
use replay_say::say;
use replay_say::say::TextOrder;
use std::io;
use wire::{Cursor, Refusal};

// A GUID at a place of the input, said in text order.
pub fn guid_read(rt: &impl Print, mut frame: Fields) -> io::Result<()> {
    let from = Cursor { at: frame.place() };
    let answer = from.guid(frame.input());
    say::read(rt, answer.map(|(g, next)| (TextOrder(g), next)))
}

// An answer that no call gave: a count, or the refusal of a number.
fn made_up(no: u8, count: usize) -> Result<usize, Refusal> {
    match no {
        0 => Ok(count),
        1 => Err(Refusal::Missing),
        2 => Err(Refusal::Unknown),
        3 => Err(Refusal::Kind),
        4 => Err(Refusal::Room),
        5 => Err(Refusal::Long),
        6 => Err(Refusal::Rule),
        7 => Err(Refusal::NotCarried),
        8 => Err(Refusal::Sequence),
        _ => Err(Refusal::NotText),
    }
}

// Stores one byte in the full room, nothing where the room ends before it, so that the words of a
// made-up answer show that it is counted.
pub fn self_test(rt: &impl Print, mut frame: Fields, room: &mut [u8]) -> io::Result<()> {
    let room = frame.room(room);
    let at = frame.four() as usize;
    let b = frame.byte();
    if let Some(place) = room.get_mut(at) {
        *place = b;
    }
    let no = frame.byte();
    let count = frame.four() as usize;
    say::wrote(rt, made_up(no, count), room)
}
