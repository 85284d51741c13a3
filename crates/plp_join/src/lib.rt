// Whole PLP values: judged by their heads alone, and their chunks joined.

#![tactic(auto)]

pub mod inner;

ghost use Rattle.std.specs.Prelude.{◌≡◌, length};
ghost use Rattle.format.specs.Answer.{map_read};
ghost use Rattle.format.specs.Plp.{read_plp, join_plp, room_after_join};
ghost use Rattle.plp_join.specs.Told.{judged_told, joined_told, counted};

use plp::Opened;
use wire::{Cursor, Refusal};

// The value that the rest of the input begins with, judged by its heads alone.
pub fn judge_plp(rest: &[u8], text: bool) -> Result<Option<(usize, usize)>, Refusal>
    ensures { judged_told result ≡ map_read counted (read_plp text rest.now) }
{
    match plp::open_walk(rest, Cursor { at: 0 }, text)? {
        Opened::Null(c) => Ok(None),
        Opened::Walk(w) => {
            let allowed = rest.len() as u64 + 1;
            let (x, k) = plp::walk_chunks(rest, w, allowed)?;
            Ok(Some((x.sum as usize, x.at)))
        },
    }
}

// The value at a place of the input, its chunks joined at the front of the room, and the next place.
pub fn join_plp(
    s: &[u8],
    from: Cursor,
    text: bool,
    out: &mut [u8],
) -> Result<(Option<usize>, Cursor), Refusal>
    ensures answer { joined_told result ≡ map_read counted (join_plp text s.now from.at (length out.old)) }
    ensures room { out.new ≡ room_after_join text s.now from.at out.old }
{
    let at = from.at;
    if s.len() < at {
        return Err(Refusal::Missing);
    }
    inner::join_in(&s[at..], at, text, out)
}
