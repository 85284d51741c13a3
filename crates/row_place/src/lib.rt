// A place in a row, and the value that stands there. Nothing is copied and nothing is written.

#![tactic(auto)]

mod inner;

ghost use Rattle.std.specs.Prelude.{◌≡◌, List, ℕ};
ghost use Rattle.column_type.specs.Told.{column_told};
ghost use Rattle.row_place.specs.Told.{row_value_told, CanonicalPlaced, placed_at};

use column_type::Column;
use cursor::Cursor;
use value_found::Found;
use value_kind::family::Family;
use wire::Refusal;

// Where the next value stands in the input, and how many content bytes were copied out before it.
#[derive(Clone, Copy)]
pub struct RowPlace {
    pub cursor: Cursor,
    pub copied: usize,
}

impl RowPlace {
    // The value of the column at this place. PLP content stands in the room behind what was copied
    // out before it; it is judged here, and its bytes are not looked at.
    pub fn value(self, c: Column, s: &[u8]) -> Result<(Found, RowPlace), Refusal>
        ensures told { (b : List ℕ) → row_value_told result ≡ placed_at (column_told b c) s.now self.cursor.at self.copied }
        ensures canonical { CanonicalPlaced result }
    {
        let at = self.cursor.at;
        if s.len() < at {
            return Err(Refusal::Missing);
        }
        if column_rule::keeps_rule(c) {
            let ty = c.ty;
            return inner::find_in(Family::from(ty), c.length as u32, &s[at..], at, self.copied);
        }
        Err(Refusal::Rule)
    }
}
