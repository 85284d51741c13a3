// The normal form of a row under a lent list of columns: all of it at the front of the room, or
// nothing.

#![tactic(auto)]

ghost use Rattle.std.specs.Prelude.{◌≡◌, List, ℕ, length};
ghost use Rattle.format.specs.Answer.{map_read, read_at, fitted_read, room_after_read};
ghost use Rattle.format.specs.Normal.{normal};
ghost use Rattle.columns.specs.Told.{columns_told};
ghost use Rattle.normal_step.specs.Told.{normal_told};

use column_type::Column;
use cursor::Cursor;
use normal_step::inner as turn;
use value_normal::inner as value;
use wire::Refusal;

// The normal form of the row at the cursor: how many bytes it has, and where the row ends.
pub fn normal_row(
    cols: &[Column],
    s: &[u8],
    cursor: Cursor,
    out: &mut [u8],
) -> Result<(usize, Cursor), Refusal>
    ensures answer { (b : List ℕ) → normal_told result ≡ map_read length (fitted_read (λ (bytes : List ℕ). bytes) (read_at (normal (columns_told b cols.now)) s.now cursor.at) (length out.old)) }
    ensures room { (b : List ℕ) → out.new ≡ room_after_read (λ (bytes : List ℕ). bytes) (fitted_read (λ (bytes : List ℕ). bytes) (read_at (normal (columns_told b cols.now)) s.now cursor.at) (length out.old)) out.old }
{
    let row = row_judge::judge_row(cols, s, cursor)?;
    if out.len() < row.normal {
        return Err(Refusal::Room);
    }
    let mut run = turn::open_run(Ok((row.normal, row.next)), cursor);
    for c in cols {
        run = turn::normal_on(out, *c, s, run);
    }
    value::close_run(out, s, run);
    Ok((row.normal, row.next))
}
