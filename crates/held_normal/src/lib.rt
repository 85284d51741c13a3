// The normal form of a row under columns that a program holds itself, in an array of 1,024 places with
// a count: the first `count` of them are lent to the call that takes a lent list.

#![tactic(auto)]

ghost use Rattle.std.specs.Prelude.{◌≡◌, List, ℕ, length};
ghost use Rattle.format.specs.Answer.{map_read, read_at, fitted_read, room_after_read};
ghost use Rattle.format.specs.Normal.{normal};
ghost use Rattle.normal_step.specs.Told.{normal_told};
ghost use Rattle.held_read.specs.Held.{first_columns, counted_read};

use column_type::Column;
use cursor::Cursor;
use wire::Refusal;

// The normal form of the row at the cursor: how many bytes it has, and where the row ends.
pub fn normal_held_row(
    cols: [Column; 1024],
    count: usize,
    s: &[u8],
    cursor: Cursor,
    out: &mut [u8],
) -> Result<(usize, Cursor), Refusal>
    ensures answer { (b : List ℕ) → normal_told result ≡ map_read length (fitted_read (λ (bytes : List ℕ). bytes) (read_at (counted_read count (normal (first_columns b cols count))) s.now cursor.at) (length out.old)) }
    ensures room { (b : List ℕ) → out.new ≡ room_after_read (λ (bytes : List ℕ). bytes) (fitted_read (λ (bytes : List ℕ). bytes) (read_at (counted_read count (normal (first_columns b cols count))) s.now cursor.at) (length out.old)) out.old }
{
    // More than the array has places for: refused, a place behind the input's end first.
    if 1024 < count {
        let needs = judge_step::inner::start(count, s.len(), cursor)?;
        return Ok((needs.normal, needs.next));
    }
    row_normal::normal_row(&cols[..count], s, cursor, out)
}
