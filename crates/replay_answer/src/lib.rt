// One frame's answer, by its op's number.

#![tactic(auto)]

use replay_number::{numbers, own, texts};
use replay_say::fields::Fields;
use replay_say::say;
use std::io;

// One frame's answer, by its op's number. An op that writes is lent the room.
pub fn answer(rt: &impl Print, frame: &[u8], room: &mut [u8]) -> io::Result<()> {
    let mut frame = Fields::new(frame);
    match frame.byte() {
        0x20 => replay_packet::header_read(rt, frame),
        0x21 => replay_packet::header_write(rt, frame, room),
        0x22 => replay_packet::prelogin_write(rt, frame, room),
        0x28 => replay_type::type_read(rt, frame),
        0x29 => replay_type::type_write(rt, frame, room),
        0x30 => replay_read::value_read(rt, frame, room),
        0x31 => replay_value::value_write(rt, frame, room),
        0x32 => replay_value::untyped_write(rt, frame, room),
        0x38 => replay_row_read::row_read(rt, frame, room),
        0x39 => replay_row::row_write(rt, frame, room),
        0x3A => replay_row::normal(rt, frame, room),
        0x40 => replay_walk::walk_open(rt, frame),
        0x41 => replay_walk::walk_on(rt, frame),
        0x48 => texts::text_in(rt, frame, room),
        0x49 => texts::text_out(rt, frame, room),
        0x50 => numbers::guid(rt, frame),
        0x51 => numbers::number(rt, frame),
        0x52 => own::guid_read(rt, frame),
        0x58 => replay_capture::capture(rt, frame, room),
        0x7E => own::self_test(rt, frame, room),
        _ => say::bad(rt),
    }
}
