// A row, judged: whether it can be read under a lent list of columns, where it ends, and what reading
// it and its normal form need of a room. No value is made, and nothing is written.

#![tactic(auto)]

ghost use Rattle.std.specs.Prelude.{◌≡◌, List, ℕ};
ghost use Rattle.format.specs.Answer.{map_read, read_at};
ghost use Rattle.format.specs.Row.{read_row};
ghost use Rattle.columns.specs.Told.{columns_told};
ghost use Rattle.judge_step.specs.Told.{needs_of, row_judged_told};

use column_type::Column;
use cursor::Cursor;
use judge_step::{RowNeeds, inner as turn};
use wire::Refusal;

// What the row at the cursor needs, or why it cannot be read.
pub fn judge_row(cols: &[Column], s: &[u8], cursor: Cursor) -> Result<RowNeeds, Refusal>
    ensures { (b : List ℕ) → row_judged_told result ≡ map_read (needs_of (columns_told b cols.now)) (read_at (read_row (columns_told b cols.now)) s.now cursor.at) }
{
    let mut row = turn::start(cols.len(), s.len(), cursor)?;
    for c in cols {
        row = turn::judge_on(*c, s, Ok(row))?;
    }
    Ok(row)
}
