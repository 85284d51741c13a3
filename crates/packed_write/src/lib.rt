// A row, written under a packed table of columns, its values three numbers each.

#![tactic(auto)]

ghost use Rattle.std.specs.Prelude.{◌≡◌, length};
ghost use Rattle.format.specs.Answer.{fitted, wrote, room_after};
ghost use Rattle.format.specs.Row.{write_row};
ghost use Rattle.wire.specs.Told.{answer_told};
ghost use Rattle.packed.specs.Packed.{table_columns};
ghost use Rattle.packed_value.specs.Numbers.{givens, no_values, unless};

use wire::Refusal;

// The row, at the front of the room.
pub fn write_packed(
    table: &[u8],
    values: &[u64],
    buffer: &[u8],
    out: &mut [u8],
) -> Result<usize, Refusal>
    ensures answer { answer_told result ≡ wrote (fitted (unless (no_values values.now) (write_row (table_columns table.now) (givens buffer.now values.now))) (length out.old)) }
    ensures room { out.new ≡ room_after (fitted (unless (no_values values.now) (write_row (table_columns table.now) (givens buffer.now values.now))) (length out.old)) out.old }
{
    let size = packed_size::size_packed(table, values, buffer)?;
    if out.len() < size {
        return Err(Refusal::Room);
    }
    let mut at: usize = 0;
    for i in 0..packed::records(table) {
        at = packed_fill::inner::fill_at(out, table, values, buffer, i, at);
    }
    Ok(size)
}
