// row_write, normal.

#![tactic(auto)]

use column_type::TypeId;
use cursor::Cursor;
use replay_list::HELD_PLACES;
use replay_say::fields::Fields;
use replay_say::say;
use std::io;
use value_kind::Value;

pub fn row_write(rt: &impl Print, mut frame: Fields, room: &mut [u8]) -> io::Result<()> {
    let room = frame.room(room);
    let mut cols = [column_type::plain(TypeId::Udt, 0); HELD_PLACES];
    let count = replay_list::held_columns(&mut frame, &mut cols);
    let mut values = [Value::Null; HELD_PLACES];
    let given = replay_list::held_values(&mut frame, &mut values);
    let answer = held::write_held_row(cols, count, values, given, frame.input(), room);
    say::wrote(rt, answer, room)
}

pub fn normal(rt: &impl Print, mut frame: Fields, room: &mut [u8]) -> io::Result<()> {
    let from = Cursor { at: frame.place() };
    let room = frame.room(room);
    let mut cols = [column_type::plain(TypeId::Udt, 0); HELD_PLACES];
    let count = replay_list::held_columns(&mut frame, &mut cols);
    match held_normal::normal_held_row(cols, count, frame.input(), from, room) {
        Ok((n, next)) => {
            print!(rt; "ok {}", next.at)?;
            say::written(rt, room, n)
        }
        Err(e) => say::refused(rt, e, room),
    }
}
