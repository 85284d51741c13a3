// A column's turn under a packed table. For this crate alone.
ghost use Rattle.std.specs.Prelude.{◌≡◌, List, ℕ, ◌*◌, ◌<◌, length, drop, Ok};
ghost use Rattle.column_type.specs.Told.{column_told};
ghost use Rattle.judge_step.specs.Told.{row_judged_told};
ghost use Rattle.judge_step.specs.Steps.{judge_on, Inside};
ghost use Rattle.packed.specs.Made.{column_made, no_name};

use cursor::Cursor;
use judge_step::{RowNeeds, inner as turn};
use packed::inner as table_inner;
use wire::Refusal;

// One value more, behind those before it. Where the record tells the value's width, the column is
// not made.
fn behind(table: &[u8], i: usize, s: &[u8], row: RowNeeds) -> Result<RowNeeds, Refusal>
    requires { (16 * i < length table.now) × Inside (length s.now) (row_judged_told (Ok row)) }
    ensures told { (b : List ℕ) → row_judged_told result ≡ judge_on (column_told b (column_made (drop (16 * i) table.now) no_name no_name no_name)) s.now (row_judged_told (Ok row)) }
    ensures inside { Inside (length s.now) (row_judged_told result) }
{
    let at = row.next.at;
    match plain_look::inner::width_at(table, i, s, at) {
        Some(n) => Ok(RowNeeds {
            next: Cursor { at: at + n },
            joined: row.joined,
            normal: row.normal + n,
        }),
        None => turn::judge_on(table_inner::column_at(table, i), s, Ok(row)),
    }
}

// The turn of the column at i. A refused row stays refused.
pub fn judge_at(
    table: &[u8],
    i: usize,
    s: &[u8],
    state: Result<RowNeeds, Refusal>,
) -> Result<RowNeeds, Refusal>
    requires { (16 * i < length table.now) × Inside (length s.now) (row_judged_told state) }
    ensures told { (b : List ℕ) → row_judged_told result ≡ judge_on (column_told b (column_made (drop (16 * i) table.now) no_name no_name no_name)) s.now (row_judged_told state) }
    ensures inside { Inside (length s.now) (row_judged_told result) }
{
    match state {
        Ok(row) => behind(table, i, s, row),
        Err(e) => Err(e),
    }
}
