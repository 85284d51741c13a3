// capture: the columns' count, their descriptors, then a row.

#![tactic(auto)]

use cursor::Cursor;
use replay_row_read::say_row;
use replay_say::fields::Fields;
use replay_say::say;
use std::io;
use wire::Width;

// That many descriptors, one after another, and the row behind them.
fn listed(
    rt: &impl Print,
    count: usize,
    s: &[u8],
    from: wire::Cursor,
    room: &mut [u8],
) -> io::Result<()> {
    match capture_columns::read_columns(s, from, count) {
        Ok(columns) => {
            let described = &columns.list[..count];
            let from = Cursor { at: columns.end.at };
            say_row(rt, &columns.list, count, described, s, from, room)
        }
        Err(e) => say::refused(rt, e.refusal, room),
    }
}

pub fn capture(rt: &impl Print, mut frame: Fields, room: &mut [u8]) -> io::Result<()> {
    let room = frame.room(room);
    let s = frame.input();
    match (wire::Cursor { at: 0 }).low(s, Width::Two) {
        Ok((n, from)) => listed(rt, n as usize, s, from, room),
        Err(e) => say::refused(rt, e, room),
    }
}
