// A row, read under a packed table of columns: three numbers for each value, PLP content joined in
// the room.

#![tactic(auto)]

ghost use Rattle.std.specs.Prelude.{◌≡◌, ◌*◌, length};
ghost use Rattle.format.specs.Answer.{map_read, read_at, fitted_read, room_after_read};
ghost use Rattle.format.specs.Row.{read_row, copied_out_row};
ghost use Rattle.judge_step.specs.Told.{needs_of, row_judged_told};
ghost use Rattle.packed.specs.Packed.{table_columns};
ghost use Rattle.packed_read.specs.Told.{slotted, row_out, values_after};

use cursor::Cursor;
use judge_step::RowNeeds;
use wire::Refusal;

// The row at the cursor: what it needed and where it ends. Its values stand at the front of the list
// of numbers, what PLP content joins to at the front of the room.
pub fn read_packed(
    table: &[u8],
    s: &[u8],
    cursor: Cursor,
    out: &mut [u8],
    values: &mut [u64],
) -> Result<RowNeeds, Refusal>
    ensures told { row_judged_told result ≡ map_read (needs_of (table_columns table.now)) (row_out (table_columns table.now) s.now cursor.at (length out.old) (length values.old)) }
    ensures room { out.new ≡ room_after_read (copied_out_row (table_columns table.now)) (row_out (table_columns table.now) s.now cursor.at (length out.old) (length values.old)) out.old }
    ensures numbers { values.new ≡ values_after (table_columns table.now) s.now cursor.at (row_out (table_columns table.now) s.now cursor.at (length out.old) (length values.old)) values.old }
{
    let row = packed_judge::judge_packed(table, s, cursor)?;
    if out.len() < row.joined {
        return Err(Refusal::Room);
    }
    if values.len() / 3 < packed::records(table) {
        return Err(Refusal::Room);
    }
    packed_slots::inner::take_values(out, values, table, s, cursor);
    Ok(row)
}
