// Content as a part of the caller's own bytes: of a span, and of the short value at a place.

#![tactic(auto)]

ghost use Rattle.std.specs.Prelude.{◌≡◌, List, ℕ};
ghost use Rattle.format.specs.Found.{handed_back};
ghost use Rattle.column_type.specs.Told.{column_told};
ghost use Rattle.value_part.specs.Told.{short_content, part_seen};

use column_type::Column;
use value_kind::Span;
use value_kind::family::Family;
use value_look::Seen;
use wire::{Cursor, Refusal};

// The part of the bytes that a span names; the empty part where it leaves them.
pub fn handed_back(s: &[u8], start: usize, count: usize) -> &[u8]
    ensures { result.now ≡ handed_back s.now start count }
{
    if wire::inside(s, start, count) {
        return &s[start..start + count];
    }
    &s[..0]
}

// The part that was seen, the empty one where there is none.
fn part_seen(seen: Result<Seen, Refusal>) -> Span
    ensures { result ≡ part_seen seen }
{
    match seen {
        Ok(Seen::Part(_, start, count)) => Span { start, count },
        Ok(Seen::Null(_) | Seen::Scalar(_, _) | Seen::Plp(_)) | Err(_) => Span {
            start: 0,
            count: 0,
        },
    }
}

// The content of the short value at the cursor, as a part of the input; the empty part where
// there is no such value.
pub fn short_content(c: Column, s: &[u8], cursor: Cursor) -> &[u8]
    ensures { (b : List ℕ) → result.now ≡ short_content (column_told b c) s.now cursor.at }
{
    let at = cursor.at;
    if s.len() < at {
        return &s[..0];
    }
    if column_rule::keeps_rule(c) {
        let ty = c.ty;
        let seen = value_look::look(Family::from(ty), c.length as u32, &s[at..]);
        let p = part_seen(seen);
        let start = at + p.start;
        return handed_back(s, start, p.count);
    }
    &s[..0]
}
