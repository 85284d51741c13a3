// walk_open, walk, and a walk's 27 bytes in a frame.

#![tactic(auto)]

use plp::{Opened, Walk};
use replay_say::fields::Fields;
use replay_say::say;
use std::{fmt, io};
use wire::Cursor;

// The total, which is 0 where it is not known.
fn total(frame: &mut Fields) -> Option<u64> {
    let known = frame.flag();
    let total = frame.eight();
    if known { Some(total) } else { None }
}

// The walk that a frame has next.
fn walk(frame: &mut Fields) -> Walk {
    Walk {
        at: frame.place(),
        sum: frame.eight(),
        total: total(frame),
        text: frame.flag(),
        ended: frame.flag(),
    }
}

// The six numbers of a walk.
#[derive(Clone, Copy)]
struct Words(Walk);

impl fmt::Display for Words {
    fn fmt<W: fmt::Write>(&self, f: &mut fmt::Formatter<W>) -> fmt::Result {
        let w = self.0;
        let known = u8::from(w.total.is_some());
        let total = w.total.unwrap_or(0);
        write!(
            f,
            "{} {} {known} {total} {} {}",
            w.at,
            w.sum,
            u8::from(w.text),
            u8::from(w.ended)
        )
    }
}

// The eight bytes at a place of the input.
pub fn walk_open(rt: &impl Print, mut frame: Fields) -> io::Result<()> {
    let from = Cursor { at: frame.place() };
    let text = frame.flag();
    match plp::open_walk(frame.input(), from, text) {
        Ok(Opened::Walk(w)) => println!(rt; "ok {} walk {}", w.at, Words(w)),
        Ok(Opened::Null(next)) => println!(rt; "ok {} null", next.at),
        Err(e) => say::no(rt, e),
    }
}

// As many heads as the frame allows.
pub fn walk_on(rt: &impl Print, mut frame: Fields) -> io::Result<()> {
    let w = walk(&mut frame);
    let allowed = frame.eight();
    match plp::walk_chunks(frame.input(), w, allowed) {
        Ok((w, taken)) => println!(rt; "ok {taken} {}", Words(w)),
        Err(e) => say::no(rt, e),
    }
}
