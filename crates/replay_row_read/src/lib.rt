// row_read, and the words of a row's values.

#![tactic(auto)]

use column_type::{Column, TypeId};
use cursor::Cursor;
use replay_list::HELD_PLACES;
use replay_say::fields::Fields;
use replay_say::say;
use row_place::RowPlace;
use std::io;

// The values from a place on, in turn. It hands back how many bytes of the room they take.
fn show_values(
    rt: &impl Print,
    cols: &[Column; HELD_PLACES],
    count: usize,
    first: RowPlace,
    s: &[u8],
    room: &[u8],
) -> io::Result<usize> {
    let mut place = first;
    for c in cols.iter().take(count) {
        let Ok((found, next)) = place.value(*c, s) else {
            break;
        };
        print!(rt; " ")?;
        replay_found::show(rt, found, s, room)?;
        place = next;
    }
    Ok(place.copied)
}

// The row at a place, behind the columns that are to be described.
pub fn say_row(
    rt: &impl Print,
    cols: &[Column; HELD_PLACES],
    count: usize,
    described: &[Column],
    s: &[u8],
    from: Cursor,
    room: &mut [u8],
) -> io::Result<()> {
    match held_read::read_held_row(*cols, count, s, from, room) {
        Ok((first, next)) => {
            print!(rt; "ok {} {count}", next.at)?;
            for c in described {
                print!(rt; " {}", replay_type::Words(*c))?;
            }
            let copied = show_values(rt, cols, count, first, s, room)?;
            say::written(rt, room, copied)
        }
        Err(e) => say::refused(rt, e, room),
    }
}

pub fn row_read(rt: &impl Print, mut frame: Fields, room: &mut [u8]) -> io::Result<()> {
    let from = Cursor { at: frame.place() };
    let room = frame.room(room);
    let mut cols = [column_type::plain(TypeId::Udt, 0); HELD_PLACES];
    let count = replay_list::held_columns(&mut frame, &mut cols);
    say_row(rt, &cols, count, &[], frame.input(), from, room)
}
