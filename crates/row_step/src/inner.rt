// The steps of both passes, for the crates of this repository, each on one column and one value by
// value.
ghost use Rattle.std.specs.Prelude.{◌≡◌, ◌+◌, length};
ghost use Rattle.lists.specs.Put.{put_at};
ghost use Rattle.format.specs.Value.{write_value};
ghost use Rattle.wire.specs.Told.{answer_told};
ghost use Rattle.column_type.specs.Told.{column_told};
ghost use Rattle.value_kind.specs.Told.{value_told};
ghost use Rattle.row_step.specs.Steps.{start_of, size_on, Below, FitsAt, bytes_in};

use column_type::Column;
use value_kind::Value;
use wire::Refusal;

// The sum before the first value: nothing, if the number of columns is let through and there are as
// many values.
pub fn start(columns: usize, values: usize) -> Result<usize, Refusal>
    ensures { answer_told result ≡ start_of columns values }
{
    if 1024 < columns {
        return Err(Refusal::Rule);
    }
    if columns != values {
        return Err(Refusal::Rule);
    }
    Ok(0)
}

// One value's size more. A refused row stays refused.
pub fn size_on(
    c: Column,
    v: Value,
    buffer: &[u8],
    s: Result<usize, Refusal>,
) -> Result<usize, Refusal>
    requires { Below 1024 (answer_told s) }
    ensures { answer_told result ≡ size_on (answer_told s) (write_value (column_told buffer.now c) (value_told buffer.now v)) }
{
    let sum = s?;
    let n = value_write::value_size(c, v, buffer)?;
    Ok(sum + n)
}

// One value more, into the unused rest of the room. It hands back the next unused place.
pub fn fill_on(out: &mut [u8], c: Column, v: Value, buffer: &[u8], at: usize) -> usize
    requires { FitsAt (write_value (column_told buffer.now c) (value_told buffer.now v)) at (length out.old) }
    ensures { (result ≡ at + length (bytes_in (write_value (column_told buffer.now c) (value_told buffer.now v))))
        × (out.new ≡ put_at out.old at (bytes_in (write_value (column_told buffer.now c) (value_told buffer.now v)))) }
{
    match value_write::write_value(c, v, buffer, &mut out[at..]) {
        Ok(n) => at + n,
        Err(_) => at,
    }
}
