// value_read.

#![tactic(auto)]

use cursor::Cursor;
use replay_say::fields::Fields;
use replay_say::say;
use std::io;
use value_found::Found;

// The place behind a value, the value, and what it takes of the room.
fn say_value(rt: &impl Print, next: Cursor, found: Found, s: &[u8], room: &[u8]) -> io::Result<()> {
    print!(rt; "ok {} ", next.at)?;
    replay_found::show(rt, found, s, room)?;
    say::written(rt, room, found.copied())
}

// The value of a column at a place of the input.
pub fn value_read(rt: &impl Print, mut frame: Fields, room: &mut [u8]) -> io::Result<()> {
    let cursor = Cursor { at: frame.place() };
    let room = frame.room(room);
    let c = replay_type::column(&mut frame);
    let s = frame.input();
    match cursor.value(c, s, room) {
        Ok((found, next)) => say_value(rt, next, found, s, room),
        Err(e) => say::refused(rt, e, room),
    }
}
