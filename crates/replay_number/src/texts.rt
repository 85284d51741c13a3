// text_in, text_out.
use replay_say::fields::Fields;
use replay_say::say;
use std::io;

pub fn text_in(rt: &impl Print, mut frame: Fields, room: &mut [u8]) -> io::Result<()> {
    let room = frame.room(room);
    let answer = text::to_utf16(frame.input(), room);
    say::wrote(rt, answer, room)
}

pub fn text_out(rt: &impl Print, mut frame: Fields, room: &mut [u8]) -> io::Result<()> {
    let room = frame.room(room);
    let answer = text::to_utf8(frame.input(), room);
    say::wrote(rt, answer, room)
}
