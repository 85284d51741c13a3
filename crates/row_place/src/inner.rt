// A value in the rest of a row: it takes what it needs of the column, not the record, which would be
// copied at every call. For this crate alone.
ghost use Rattle.std.specs.Prelude.{◌≡◌, true, ◌+◌, ◌≤◌, length};
ghost use Rattle.format.specs.Descriptor as D;
ghost use Rattle.format.specs.Value.{read_family, is_plp};
ghost use Rattle.format.specs.Answer.{took};
ghost use Rattle.value_kind.specs.Told.{content_kind_told, family_told};
ghost use Rattle.value_found.specs.Told.{found_told, CanonicalFound, plp_value};
ghost use Rattle.row_place.specs.Told.{row_value_told, CanonicalPlaced, placed_behind};

use crate::RowPlace;
use cursor::Cursor;
use value_found::{Found, Stand, inner};
use value_kind::Span;
use value_kind::family::{ContentKind, Family};
use value_look::Seen;
use wire::Refusal;

// No room has more bytes.
const MOST_ROOM: usize = 18446744073709551615;

// A value that was found, and the place behind it.
fn placed(found: Found, next: usize, copied: usize) -> Result<(Found, RowPlace), Refusal>
    requires { CanonicalFound found }
    ensures told { row_value_told result ≡ took (record { found = found_told found; copied = copied }) next }
    ensures canonical { CanonicalPlaced result }
{
    Ok((
        found,
        RowPlace {
            cursor: Cursor { at: next },
            copied,
        },
    ))
}

// PLP content, judged by its heads: it stands in the room behind what was copied out before it.
fn plp_value(
    k: ContentKind,
    rest: &[u8],
    at: usize,
    copied: usize,
) -> Result<(Found, RowPlace), Refusal>
    requires { at + length rest.now ≤ 18446744073709551615 }
    ensures told { (c : D.Column) → is_plp c ≡ true → row_value_told result ≡ placed_behind c (plp_value (content_kind_told k) rest.now) at copied }
    ensures canonical { CanonicalPlaced result }
{
    match plp_join::judge_plp(rest, k.is_text())? {
        None => placed(Found::Null, at + 8, copied),
        Some((count, end)) => {
            if MOST_ROOM - copied < count {
                return Err(Refusal::Room);
            }
            let found = inner::content_found(
                k,
                Stand::Room(Span {
                    start: copied,
                    count,
                }),
            );
            placed(found, at + end, copied + count)
        },
    }
}

// The value that the rest of a row, from `at` on, begins with.
pub fn find_in(
    f: Family,
    declared: u32,
    rest: &[u8],
    at: usize,
    copied: usize,
) -> Result<(Found, RowPlace), Refusal>
    requires { at + length rest.now ≤ 18446744073709551615 }
    ensures told { (c : D.Column) → c.length ≡ declared → row_value_told result ≡ placed_behind c (read_family declared (family_told f) rest.now) at copied }
    ensures canonical { CanonicalPlaced result }
{
    match value_look::look(f, declared, rest)? {
        Seen::Null(n) => placed(Found::Null, at + n, copied),
        Seen::Scalar(k, from) => {
            let v = scalar_read::inner::scalar_at(k, rest, from);
            placed(Found::Scalar(v), at + (from + k.bytes()), copied)
        },
        Seen::Part(k, start, count) => {
            let found = inner::content_found(
                k,
                Stand::Input(Span {
                    start: at + start,
                    count,
                }),
            );
            placed(found, at + (start + count), copied)
        },
        Seen::Plp(k) => plp_value(k, rest, at, copied),
    }
}
