// A capture for a person: a line for each column, where the row ends, and its normal form; or why it
// is refused, and how far it got.

#![tactic(auto)]

use column_type::Column;
use cursor::Cursor;
use show_line::refused;
use std::io;
use wire::Width;

// The normal form of the row: its length and its bytes.
fn show_normal(
    rt: &impl Print,
    cols: &[Column],
    s: &[u8],
    cursor: Cursor,
    room: &mut [u8],
) -> io::Result<()> {
    let made = row_normal::normal_row(cols, s, cursor, room);
    match made {
        Ok((n, _)) => show_line::say_normal(rt, &room[..n]),
        Err(e) => refused::say_refusal(rt, e),
    }
}

// The row behind the columns.
fn show_row(
    rt: &impl Print,
    cols: &[Column],
    s: &[u8],
    cursor: Cursor,
    joined: &mut [u8],
    room: &mut [u8],
) -> io::Result<()> {
    match row_read::read_row(cols, s, cursor, joined) {
        Ok((first, next)) => {
            show_line::say_head(rt)?;
            show_row::show_values(rt, cols, s, first, joined, room)?;
            show_line::say_end(rt, next.at, s.len())?;
            show_normal(rt, cols, s, cursor, room)
        }
        Err(e) => show_row::show_stop(rt, e, cols, s, cursor),
    }
}

// That many descriptors, one after another, and the row behind them.
fn show_listed(
    rt: &impl Print,
    count: usize,
    s: &[u8],
    from: wire::Cursor,
    joined: &mut [u8],
    room: &mut [u8],
) -> io::Result<()> {
    match capture_columns::read_columns(s, from, count) {
        Ok(columns) => {
            let cols = &columns.list[..count];
            show_row(rt, cols, s, Cursor { at: columns.end.at }, joined, room)
        }
        Err(e) => refused::say_descriptor(rt, e.refusal, e.before, e.at.at, count),
    }
}

// A capture. `joined` is room for long content, `room` for text and for the normal form.
pub fn show(rt: &impl Print, s: &[u8], joined: &mut [u8], room: &mut [u8]) -> io::Result<()> {
    match (wire::Cursor { at: 0 }).low(s, Width::Two) {
        Ok((n, from)) => show_listed(rt, n as usize, s, from, joined, room),
        Err(e) => refused::say_count(rt, e),
    }
}
