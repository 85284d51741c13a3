// One column value, read: its kind, where its content stands, and the next place.

#![tactic(auto)]

ghost use Rattle.std.specs.Prelude.{◌≡◌, List, ℕ};
ghost use Rattle.column_type.specs.Told.{column_told};
ghost use Rattle.value_found.specs.Told.{value_read_told, CanonicalRead};
ghost use Rattle.value_read.specs.Told.{found_out, room_out};

use column_type::Column;
use value_found::{Found, inner};
use value_kind::family::Family;
use wire::{Cursor, Refusal};

// The value of the column at the cursor; PLP content is joined at the front of the room.
pub fn read_value(
    c: Column,
    s: &[u8],
    cursor: Cursor,
    out: &mut [u8],
) -> Result<(Found, Cursor), Refusal>
    ensures told { (b : List ℕ) → value_read_told result ≡ found_out (column_told b c) s.now cursor.at out.old }
    ensures canonical { CanonicalRead result }
    ensures room { (b : List ℕ) → out.new ≡ room_out (column_told b c) s.now cursor.at out.old }
{
    let at = cursor.at;
    if s.len() < at {
        return Err(Refusal::Missing);
    }
    if column_rule::keeps_rule(c) {
        let ty = c.ty;
        return inner::read_in(Family::from(ty), c.length as u32, &s[at..], at, 0, out);
    }
    Err(Refusal::Rule)
}
