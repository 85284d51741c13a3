// PLP values: the eight bytes and the chunk walk with its allowance.

#![tactic(auto)]

mod inner;

ghost use Rattle.std.specs.Prelude.{◌≡◌};
ghost use Rattle.format.specs.Plp.{open_walk, take_head, walk_chunks};
ghost use Rattle.plp.specs.Told.{walk_told, opened_told, headed_told, walked_told};

use plp_rule::Eight;
use wire::{Cursor, Refusal, Width};

// Where a walk over chunks stands: its place, the content bytes passed, the total, whether an even
// count is asked, and whether the last zero was taken.
#[derive(Clone, Copy)]
pub struct Walk {
    pub at: usize,
    pub sum: u64,
    pub total: Option<u64>,
    pub text: bool,
    pub ended: bool,
}

// A walk behind the eight bytes; or the place behind a null, which has no chunks.
#[derive(Clone, Copy)]
pub enum Opened {
    Walk(Walk),
    Null(Cursor),
}

// The eight bytes at the cursor, and the walk behind them.
pub fn open_walk(s: &[u8], from: Cursor, text: bool) -> Result<Opened, Refusal>
    ensures { opened_told result ≡ open_walk text s.now from.at }
{
    let (n, next) = from.low(s, Width::Eight)?;
    match plp_rule::eight_of(n)? {
        Eight::Null => Ok(Opened::Null(next)),
        Eight::Chunked(total) => {
            Ok(Opened::Walk(Walk {
                at: next.at,
                sum: 0,
                total,
                text,
                ended: false,
            }))
        },
    }
}

// One chunk head.
fn take_head(s: &[u8], w: Walk) -> Result<Walk, Refusal>
    ensures { headed_told result ≡ take_head s.now (walk_told w) }
{
    let at = w.at;
    if wire::inside(s, at, 4) {
        let n = wire::inner::low_at(s, at, 4);
        if n == 0 {
            return inner::end_of(w);
        }
        return inner::chunk_of(s, w, n);
    }
    Err(Refusal::Missing)
}

// As many chunk heads as are allowed, or up to the last zero, from whatever state.
pub fn walk_chunks(s: &[u8], w: Walk, allowed: u64) -> Result<(Walk, u64), Refusal>
    ensures { walked_told result ≡ walk_chunks allowed s.now (walk_told w) }
{
    let at = w.at;
    if s.len() < at {
        return Err(Refusal::Missing);
    }
    let mut v = w;
    for taken in 0..allowed {
        if v.ended {
            return Ok((v, taken));
        }
        v = take_head(s, v)?;
    }
    Ok((v, allowed))
}
