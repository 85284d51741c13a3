// A walk over PLP chunks as six numbers: at, sum, known, total, text, ended.

#![tactic(auto)]

ghost use Rattle.std.specs.Prelude.{◌≡◌};
ghost use Rattle.plp.specs.Told.{walk_told, headed_told, walked_told};
ghost use Rattle.board_answer.specs.Told.{counted, place, after};
ghost use Rattle.board_walk.specs.Plain.{walk_numbers, walk_at, given, walk_step, heads, walk_after};
ghost use Rattle.board_walk.specs.Told.{opened_told};

use board_answer::Counted;
use plp::{Opened, Walk};
use wire::{Cursor, Refusal};

// A walk's six numbers.
fn numbers(w: Walk) -> [u64; 6]
    ensures { result ≡ walk_numbers (walk_told w) }
{
    [
        w.at as u64,
        w.sum,
        u64::from(w.total.is_some()),
        w.total.unwrap_or(0),
        u64::from(w.text),
        u64::from(w.ended),
    ]
}

// The walk behind the eight bytes at a place of the bytes. A null's has ended.
fn opened(bytes: &[u8], at: usize, text: u8) -> Result<Walk, Refusal>
    ensures { opened_told result ≡ walk_at text bytes.now at }
{
    let text = board_answer::flag(u64::from(text))?;
    match plp::open_walk(bytes, Cursor { at }, text)? {
        Opened::Walk(w) => Ok(w),
        Opened::Null(next) => Ok(Walk {
            at: next.at,
            sum: 0,
            total: None,
            text,
            ended: true,
        }),
    }
}

// The same, as six numbers.
pub fn walk_open(bytes: &[u8], at: usize, text: u8, walk: &mut [u64; 6]) -> Counted
    ensures answer { result ≡ counted (place (walk_at text bytes.now at)) }
    ensures room { walk.new ≡ after (walk_at text bytes.now at) walk.old }
{
    match opened(bytes, at, text) {
        Ok(w) => {
            *walk = numbers(w);
            board_answer::at(w.at)
        }
        Err(e) => board_answer::refused(e),
    }
}

// The walk of six numbers. A flag is 0 or 1.
fn walk_given(n: &[u64; 6]) -> Result<Walk, Refusal>
    ensures { headed_told result ≡ given n.now }
{
    let known = board_answer::flag(n[2])?;
    Ok(Walk {
        at: n[0] as usize,
        sum: n[1],
        total: known.then_some(n[3]),
        text: board_answer::flag(n[4])?,
        ended: board_answer::flag(n[5])?,
    })
}

// The walk of six numbers, as many chunk heads further as are allowed, or up to the last zero; and how
// many were taken.
fn stepped(bytes: &[u8], allowed: u64, n: &[u64; 6]) -> Result<(Walk, u64), Refusal>
    ensures { walked_told result ≡ walk_step allowed bytes.now n.now }
{
    plp::walk_chunks(bytes, walk_given(n)?, allowed)
}

// As many chunk heads as are allowed, or up to the last zero.
pub fn walk_step(bytes: &[u8], allowed: u64, walk: &mut [u64; 6]) -> Counted
    ensures answer { result ≡ counted (heads (walk_step allowed bytes.now walk.old)) }
    ensures room { walk.new ≡ walk_after (walk_step allowed bytes.now walk.old) walk.old }
{
    match stepped(bytes, allowed, walk) {
        Ok((w, taken)) => {
            *walk = numbers(w);
            board_answer::count(taken)
        }
        Err(e) => board_answer::refused(e),
    }
}
