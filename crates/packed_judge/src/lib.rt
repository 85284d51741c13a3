// A row, judged under a packed table of columns: whether it can be read, where it ends, and what
// reading it and its normal form need of a room.

#![tactic(auto)]

mod inner;

ghost use Rattle.std.specs.Prelude.{◌≡◌};
ghost use Rattle.format.specs.Answer.{map_read, read_at};
ghost use Rattle.format.specs.Row.{read_row};
ghost use Rattle.judge_step.specs.Told.{needs_of, row_judged_told};
ghost use Rattle.packed.specs.Packed.{table_columns};

use cursor::Cursor;
use judge_step::{RowNeeds, inner as turn};
use wire::Refusal;

// What the row at the cursor needs, or why it cannot be read.
pub fn judge_packed(table: &[u8], s: &[u8], cursor: Cursor) -> Result<RowNeeds, Refusal>
    ensures { row_judged_told result ≡ map_read (needs_of (table_columns table.now)) (read_at (read_row (table_columns table.now)) s.now cursor.at) }
{
    let columns = packed::records(table);
    let mut row = turn::start(columns, s.len(), cursor)?;
    for i in 0..columns {
        row = inner::judge_at(table, i, s, Ok(row))?;
    }
    Ok(row)
}
