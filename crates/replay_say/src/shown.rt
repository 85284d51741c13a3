// Words of an answer's line that can be formatted; `say` hands them on. It has each as a function too,
// for long bytes.
ghost use Rattle.std.specs.Prelude.{Some};
ghost use Rattle.replay_say.specs.Words.{bytes_text, written_text};

use crate::say::changed;
use std::fmt;
use words::Hex;

// A word of bytes, `-` for none.
#[derive(Clone, Copy)]
pub struct Bytes<'a>(pub &'a [u8]);

impl fmt::Display for Bytes<'_> {
    ghost output = { λ b. Some (bytes_text b.0.now) };

    fn fmt<W: fmt::Write>(&self, f: &mut fmt::Formatter<W>) -> fmt::Result {
        let s = self.0;
        if s.is_empty() {
            return f.write_str("-");
        }
        write!(f, "{}", Hex(s))
    }
}

// A room behind a call: the bytes at its front that were written, and how many behind them changed.
#[derive(Clone, Copy)]
pub struct Written<'a> {
    pub room: &'a [u8],
    pub count: usize,
}

impl fmt::Display for Written<'_> {
    ghost output = { λ w. Some (written_text w.room.now w.count) };

    fn fmt<W: fmt::Write>(&self, f: &mut fmt::Formatter<W>) -> fmt::Result {
        let count = self.count;
        match self.room.split_at_checked(count) {
            Some((front, rest)) => write!(f, "{count} {} changed {}", Bytes(front), changed(rest)),
            None => write!(f, "{count}"),
        }
    }
}
