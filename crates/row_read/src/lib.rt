// A row, read: its values one after another under a lent list of columns, PLP content joined in the
// room.

#![tactic(auto)]

ghost use Rattle.std.specs.Prelude.{◌≡◌, List, ℕ, length};
ghost use Rattle.format.specs.Answer.{map_read, read_at, fitted_read, room_after_read};
ghost use Rattle.format.specs.Row.{read_row, copied_out_row};
ghost use Rattle.columns.specs.Told.{columns_told};
ghost use Rattle.read_step.specs.Told.{first_place, row_read_told};

use column_type::Column;
use cursor::Cursor;
use read_step::inner as turn;
use row_place::RowPlace;
use wire::Refusal;

// The row at the cursor: its first value's place, from which `value` takes the values in turn, and
// where it ends. What PLP content joins to stands at the front of the room.
pub fn read_row(
    cols: &[Column],
    s: &[u8],
    cursor: Cursor,
    out: &mut [u8],
) -> Result<(RowPlace, Cursor), Refusal>
    ensures told { (b : List ℕ) → row_read_told result ≡ map_read (λ vs. first_place cursor.at) (fitted_read (copied_out_row (columns_told b cols.now)) (read_at (read_row (columns_told b cols.now)) s.now cursor.at) (length out.old)) }
    ensures room { (b : List ℕ) → out.new ≡ room_after_read (copied_out_row (columns_told b cols.now)) (fitted_read (copied_out_row (columns_told b cols.now)) (read_at (read_row (columns_told b cols.now)) s.now cursor.at) (length out.old)) out.old }
{
    let row = row_judge::judge_row(cols, s, cursor)?;
    if out.len() < row.joined {
        return Err(Refusal::Room);
    }
    let first = turn::first(cursor);
    if row.joined != 0 {
        let mut place = first;
        for c in cols {
            place = turn::join_on(out, *c, s, place);
        }
    }
    Ok((first, row.next))
}
