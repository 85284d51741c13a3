// A row, written: its values one after another under a lent list of columns.

#![tactic(auto)]

ghost use Rattle.std.specs.Prelude.{◌≡◌, length};
ghost use Rattle.format.specs.Answer.{fitted, wrote, room_after};
ghost use Rattle.format.specs.Row.{write_row};
ghost use Rattle.wire.specs.Told.{answer_told};
ghost use Rattle.columns.specs.Told.{columns_told, values_told};

use column_type::Column;
use row_step::inner as turn;
use value_kind::Value;
use wire::Refusal;

// The row, at the front of the room.
pub fn write_row(
    cols: &[Column],
    values: &[Value],
    buffer: &[u8],
    out: &mut [u8],
) -> Result<usize, Refusal>
    ensures answer { answer_told result ≡ wrote (fitted (write_row (columns_told buffer.now cols.now) (values_told buffer.now values.now)) (length out.old)) }
    ensures room { out.new ≡ room_after (fitted (write_row (columns_told buffer.now cols.now) (values_told buffer.now values.now)) (length out.old)) out.old }
{
    let size = row_size::row_size(cols, values, buffer)?;
    if out.len() < size {
        return Err(Refusal::Room);
    }
    let mut at: usize = 0;
    for (c, v) in cols.iter().zip(values) {
        at = turn::fill_on(out, *c, *v, buffer, at);
    }
    Ok(size)
}
