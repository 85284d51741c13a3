// Rows for a program that holds its columns and values itself, in arrays of 1,024 places with a
// count. Each call here lends the first `count` of them to the call that takes a lent list, so that
// such a program is covered by the prover and needs no walk of its own.

#![tactic(auto)]

ghost use Rattle.std.specs.Prelude.{◌≡◌, ◌≤◌, length, IfOk};
ghost use Rattle.format.specs.Answer.{gives, fitted, wrote, room_after};
ghost use Rattle.wire.specs.Told.{answer_told};
ghost use Rattle.held.specs.Held.{counted, write_held};

use column_type::Column;
use value_kind::Value;
use wire::Refusal;

// Whether the arrays have so many columns and so many values.
fn counts(count: usize, given: usize) -> Result<(), Refusal>
    ensures fits { IfOk result (λ u. (count ≤ 1024) × (given ≤ 1024)) }
    ensures told { answer_told result ≡ counted count (counted given (gives tt)) }
{
    if 1024 < count || 1024 < given {
        return Err(Refusal::Rule);
    }
    Ok(())
}

// How many bytes the row takes, or why it cannot be written.
pub fn held_row_size(
    cols: [Column; 1024],
    count: usize,
    values: [Value; 1024],
    given: usize,
    buffer: &[u8],
) -> Result<usize, Refusal>
    ensures { answer_told result ≡ wrote (write_held buffer.now cols count values given) }
{
    counts(count, given)?;
    row_size::row_size(&cols[..count], &values[..given], buffer)
}

// The row, at the front of the room.
pub fn write_held_row(
    cols: [Column; 1024],
    count: usize,
    values: [Value; 1024],
    given: usize,
    buffer: &[u8],
    out: &mut [u8],
) -> Result<usize, Refusal>
    ensures answer { answer_told result ≡ wrote (fitted (write_held buffer.now cols count values given) (length out.old)) }
    ensures room { out.new ≡ room_after (fitted (write_held buffer.now cols count values given) (length out.old)) out.old }
{
    counts(count, given)?;
    row_write::write_row(&cols[..count], &values[..given], buffer, out)
}
