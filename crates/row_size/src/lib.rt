// A row's size: its values one after another under a lent list of columns.

#![tactic(auto)]

ghost use Rattle.std.specs.Prelude.{◌≡◌};
ghost use Rattle.format.specs.Answer.{wrote};
ghost use Rattle.format.specs.Row.{write_row};
ghost use Rattle.wire.specs.Told.{answer_told};
ghost use Rattle.columns.specs.Told.{columns_told, values_told};

use column_type::Column;
use row_step::inner as turn;
use value_kind::Value;
use wire::Refusal;

// How many bytes the row takes, or why it cannot be written.
pub fn row_size(cols: &[Column], values: &[Value], buffer: &[u8]) -> Result<usize, Refusal>
    ensures { answer_told result ≡ wrote (write_row (columns_told buffer.now cols.now) (values_told buffer.now values.now)) }
{
    let mut sum = turn::start(cols.len(), values.len())?;
    for (c, v) in cols.iter().zip(values) {
        sum = turn::size_on(*c, *v, buffer, Ok(sum))?;
    }
    Ok(sum)
}
