// The normal form of a row under a packed table of columns: all of it at the front of the room, or
// nothing.

#![tactic(auto)]

mod inner;

ghost use Rattle.std.specs.Prelude.{◌≡◌, List, ℕ, length};
ghost use Rattle.format.specs.Answer.{map_read, read_at, fitted_read, room_after_read};
ghost use Rattle.format.specs.Normal.{normal};
ghost use Rattle.normal_step.specs.Told.{normal_told};
ghost use Rattle.packed.specs.Packed.{table_columns};

use cursor::Cursor;
use normal_step::inner as turn;
use value_normal::inner as value;
use wire::Refusal;

// The normal form of the row at the cursor: how many bytes it has, and where the row ends.
pub fn normal_packed(
    table: &[u8],
    s: &[u8],
    cursor: Cursor,
    out: &mut [u8],
) -> Result<(usize, Cursor), Refusal>
    ensures answer { normal_told result ≡ map_read length (fitted_read (λ (bytes : List ℕ). bytes) (read_at (normal (table_columns table.now)) s.now cursor.at) (length out.old)) }
    ensures room { out.new ≡ room_after_read (λ (bytes : List ℕ). bytes) (fitted_read (λ (bytes : List ℕ). bytes) (read_at (normal (table_columns table.now)) s.now cursor.at) (length out.old)) out.old }
{
    let row = packed_judge::judge_packed(table, s, cursor)?;
    if out.len() < row.normal {
        return Err(Refusal::Room);
    }
    let mut run = turn::open_run(Ok((row.normal, row.next)), cursor);
    for i in 0..packed::records(table) {
        run = inner::normal_at(out, table, i, s, run);
    }
    value::close_run(out, s, run);
    Ok((row.normal, row.next))
}
