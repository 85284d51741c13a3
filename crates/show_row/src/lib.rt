// The values of a row for a person, a line for each; or the first of them that is refused.

#![tactic(auto)]

use column_type::Column;
use cursor::Cursor;
use row_place::RowPlace;
use show_line::refused;
use std::io;
use wire::Refusal;

// The values of a row that was read, a line for each.
pub fn show_values(
    rt: &impl Print,
    cols: &[Column],
    s: &[u8],
    first: RowPlace,
    joined: &[u8],
    room: &mut [u8],
) -> io::Result<()> {
    let mut place = first;
    for (i, c) in cols.iter().enumerate() {
        let Ok((found, next)) = place.value(*c, s) else {
            return Ok(());
        };
        show_line::say_column(rt, i, *c)?;
        show_value::say_found(rt, found, s, joined, room)?;
        println!(rt)?;
        place = next;
    }
    Ok(())
}

// A row that was refused: the first column whose value is, and where that begins.
pub fn show_stop(
    rt: &impl Print,
    e: Refusal,
    cols: &[Column],
    s: &[u8],
    cursor: Cursor,
) -> io::Result<()> {
    refused::say_refusal(rt, e)?;
    let mut place = RowPlace { cursor, copied: 0 };
    for (i, c) in cols.iter().enumerate() {
        let Ok((_, next)) = place.value(*c, s) else {
            return refused::say_value(rt, i, *c, place.cursor.at);
        };
        place = next;
    }
    Ok(())
}
