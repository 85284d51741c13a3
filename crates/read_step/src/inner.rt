// The steps of reading a row, for the crates of this repository, each on one column by value.
ghost use Rattle.std.specs.Prelude.{◌≡◌, List, ℕ, length};
ghost use Rattle.lists.specs.Put.{put_at};
ghost use Rattle.format.specs.Answer.{map_read, read_at};
ghost use Rattle.format.specs.Value.{read_value};
ghost use Rattle.column_type.specs.Told.{column_told};
ghost use Rattle.row_place.specs.Told.{placed_of, row_value_told, CanonicalPlaced};
ghost use Rattle.read_step.specs.Told.{first_place, place_told};
ghost use Rattle.read_step.specs.Steps.{FitsAt, copied_in, place_behind};

use column_type::Column;
use cursor::Cursor;
use row_place::RowPlace;
use value_found::{Found, inner};
use value_kind::family::Family;
use wire::Refusal;

// Where the first value stands.
pub fn first(cursor: Cursor) -> RowPlace
    ensures { place_told result ≡ first_place cursor.at }
{
    RowPlace { cursor, copied: 0 }
}

// The value of a column, its PLP content put into the room behind what was copied before, and the
// next place. The row was judged before, so that nothing is refused.
pub fn take_on(
    out: &mut [u8],
    c: Column,
    s: &[u8],
    place: RowPlace,
) -> Result<(Found, RowPlace), Refusal>
    requires { (b : List ℕ) → FitsAt (column_told b c) (read_at (read_value (column_told b c)) s.now place.cursor.at) place.copied (length out.old) }
    ensures told { (b : List ℕ) → row_value_told result ≡ map_read (placed_of (column_told b c) place.cursor.at place.copied) (read_at (read_value (column_told b c)) s.now place.cursor.at) }
    ensures canonical { CanonicalPlaced result }
    ensures room { (b : List ℕ) → out.new ≡ put_at out.old place.copied (copied_in (column_told b c) (read_at (read_value (column_told b c)) s.now place.cursor.at)) }
{
    let at = place.cursor.at;
    let copied = place.copied;
    let ty = c.ty;
    let (found, next) = inner::read_in(
        Family::from(ty),
        c.length as u32,
        &s[at..],
        at,
        copied,
        out,
    )?;
    Ok((
        found,
        RowPlace {
            cursor: Cursor { at: next.at },
            copied: copied + found.copied(),
        },
    ))
}

// One value more: only its content is wanted, and the next place.
pub fn join_on(out: &mut [u8], c: Column, s: &[u8], place: RowPlace) -> RowPlace
    requires { (b : List ℕ) → FitsAt (column_told b c) (read_at (read_value (column_told b c)) s.now place.cursor.at) place.copied (length out.old) }
    ensures { (b : List ℕ) → (place_told result ≡ place_behind (column_told b c) (read_at (read_value (column_told b c)) s.now place.cursor.at) (place_told place))
        × (out.new ≡ put_at out.old place.copied (copied_in (column_told b c) (read_at (read_value (column_told b c)) s.now place.cursor.at))) }
{
    match take_on(out, c, s, place) {
        Ok((_, next)) => next,
        Err(_) => place,
    }
}
