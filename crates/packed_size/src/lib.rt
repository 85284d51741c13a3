// A row's size under a packed table of columns, its values three numbers each.

#![tactic(auto)]

ghost use Rattle.std.specs.Prelude.{◌≡◌, ◌+◌, ◌*◌, ◌<◌, ◌≤◌, length, None};
ghost use Rattle.format.specs.Answer.{gives, wrote};
ghost use Rattle.format.specs.Row.{write_row};
ghost use Rattle.wire.specs.Told.{answer_told};
ghost use Rattle.packed.specs.Packed.{table_columns};
ghost use Rattle.packed_value.specs.Numbers.{givens, no_values, unless};
ghost use Rattle.plain_write.specs.Bytes.{written_at};
ghost use Rattle.row_step.specs.Steps.{size_on, most_of};

use packed::inner;
use packed_value::inner as value;
use row_step::inner as turn;
use wire::Refusal;

// One value's size more, the column and the value made.
fn size_made(
    table: &[u8],
    values: &[u64],
    buffer: &[u8],
    i: usize,
    sum: usize,
) -> Result<usize, Refusal>
    requires { (16 * i < length table.now) × (3 * i + 3 ≤ length values.now) × (sum ≤ 1024 * most_of) }
    ensures { answer_told result ≡ size_on (gives sum) (written_at table.now values.now buffer.now i) }
{
    let c = inner::column_at(table, i);
    let v = value::value_at(values, i);
    turn::size_on(c, v, buffer, Ok(sum))
}

// The same, by the numbers alone where they tell it.
fn size_at(
    table: &[u8],
    values: &[u64],
    buffer: &[u8],
    i: usize,
    sum: usize,
) -> Result<usize, Refusal>
    requires { (16 * i < length table.now) × (3 * i + 3 ≤ length values.now) × (sum ≤ 1024 * most_of) }
    ensures { answer_told result ≡ size_on (gives sum) (written_at table.now values.now buffer.now i) }
{
    match plain_write::inner::plain_at(table, i, values[3 * i]) {
        Some((_, n)) => Ok(sum + n),
        None => size_made(table, values, buffer, i, sum),
    }
}

// The row's size, of values that were judged.
fn size_judged(table: &[u8], values: &[u64], buffer: &[u8]) -> Result<usize, Refusal>
    requires { no_values values.now ≡ None }
    ensures { answer_told result ≡ wrote (write_row (table_columns table.now) (givens buffer.now values.now)) }
{
    let columns = packed::records(table);
    let mut sum = turn::start(columns, packed_value::count(values))?;
    for i in 0..columns {
        sum = size_at(table, values, buffer, i, sum)?;
    }
    Ok(sum)
}

// How many bytes the row takes, or why it cannot be written.
pub fn size_packed(table: &[u8], values: &[u64], buffer: &[u8]) -> Result<usize, Refusal>
    ensures { answer_told result ≡ wrote (unless (no_values values.now) (write_row (table_columns table.now) (givens buffer.now values.now))) }
{
    packed_value::judge_values(values)?;
    size_judged(table, values, buffer)
}
