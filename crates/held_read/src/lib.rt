// Rows read by a program that holds its columns itself, in an array of 1,024 places with a count.
// Each call here lends the first `count` of them to the call that takes a lent list.

#![tactic(auto)]

ghost use Rattle.std.specs.Prelude.{◌≡◌, List, ℕ, length};
ghost use Rattle.format.specs.Answer.{map_read, read_at, fitted_read, room_after_read};
ghost use Rattle.format.specs.Row.{read_row, copied_out_row};
ghost use Rattle.judge_step.specs.Told.{needs_of, row_judged_told};
ghost use Rattle.read_step.specs.Told.{first_place, row_read_told};
ghost use Rattle.held_read.specs.Held.{first_columns, counted_read};

use column_type::Column;
use cursor::Cursor;
use judge_step::RowNeeds;
use row_place::RowPlace;
use wire::Refusal;

// What the row at the cursor needs, or why it cannot be read.
pub fn judge_held_row(
    cols: [Column; 1024],
    count: usize,
    s: &[u8],
    cursor: Cursor,
) -> Result<RowNeeds, Refusal>
    ensures { (b : List ℕ) → row_judged_told result ≡ map_read (needs_of (first_columns b cols count)) (read_at (counted_read count (read_row (first_columns b cols count))) s.now cursor.at) }
{
    // More than the array has places for: refused, a place behind the input's end first.
    if 1024 < count {
        return judge_step::inner::start(count, s.len(), cursor);
    }
    row_judge::judge_row(&cols[..count], s, cursor)
}

// The row at the cursor: its first value's place, from which `RowPlace::value` takes the values in
// turn, and where it ends. What PLP content joins to stands at the front of the room.
pub fn read_held_row(
    cols: [Column; 1024],
    count: usize,
    s: &[u8],
    cursor: Cursor,
    out: &mut [u8],
) -> Result<(RowPlace, Cursor), Refusal>
    ensures told { (b : List ℕ) → row_read_told result ≡ map_read (λ vs. first_place cursor.at) (fitted_read (copied_out_row (first_columns b cols count)) (read_at (counted_read count (read_row (first_columns b cols count))) s.now cursor.at) (length out.old)) }
    ensures room { (b : List ℕ) → out.new ≡ room_after_read (copied_out_row (first_columns b cols count)) (fitted_read (copied_out_row (first_columns b cols count)) (read_at (counted_read count (read_row (first_columns b cols count))) s.now cursor.at) (length out.old)) out.old }
{
    // As above.
    if 1024 < count {
        let needs = judge_step::inner::start(count, s.len(), cursor)?;
        return Ok((read_step::inner::first(cursor), needs.next));
    }
    row_read::read_row(&cols[..count], s, cursor, out)
}
