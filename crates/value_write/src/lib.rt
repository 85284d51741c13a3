// One column value: what it may be, and its bytes under a type or without one.

#![tactic(auto)]

ghost use Rattle.std.specs.Prelude.{◌≡◌, length};
ghost use Rattle.format.specs.Answer.{fitted, wrote, room_after};
ghost use Rattle.format.specs.Value.{write_family, write_value};
ghost use Rattle.wire.specs.Told.{answer_told};
ghost use Rattle.column_type.specs.Told.{column_told};
ghost use Rattle.value_kind.specs.Told.{family_told, value_told};

use column_type::Column;
use value_fill::inner;
use value_kind::Value;
use value_kind::family::Family;
use value_size::size;
use wire::Refusal;

// How many bytes the value takes under the column, or why it cannot be written.
pub fn value_size(c: Column, v: Value, buffer: &[u8]) -> Result<usize, Refusal>
    ensures { answer_told result ≡ wrote (write_value (column_told buffer.now c) (value_told buffer.now v)) }
{
    if column_rule::keeps_rule(c) {
        let ty = c.ty;
        return size::in_family(Family::from(ty), c.length as u32, v, buffer);
    }
    Err(Refusal::Rule)
}

// The value under a family, at the front of the room. It takes what it needs of the column, not the
// record, which would be copied at every call.
fn write_in(
    f: Family,
    declared: u32,
    v: Value,
    buffer: &[u8],
    out: &mut [u8],
) -> Result<usize, Refusal>
    ensures answer { answer_told result ≡ wrote (fitted (write_family declared (family_told f) (value_told buffer.now v)) (length out.old)) }
    ensures room { out.new ≡ room_after (fitted (write_family declared (family_told f) (value_told buffer.now v)) (length out.old)) out.old }
{
    let n = size::in_family(f, declared, v, buffer)?;
    if out.len() < n {
        return Err(Refusal::Room);
    }
    inner::fill(f, declared, v, buffer, &mut out[..n]);
    Ok(n)
}

// The value under the column, at the front of the room.
pub fn write_value(c: Column, v: Value, buffer: &[u8], out: &mut [u8]) -> Result<usize, Refusal>
    ensures answer { answer_told result ≡ wrote (fitted (write_value (column_told buffer.now c) (value_told buffer.now v)) (length out.old)) }
    ensures room { out.new ≡ room_after (fitted (write_value (column_told buffer.now c) (value_told buffer.now v)) (length out.old)) out.old }
{
    if column_rule::keeps_rule(c) {
        let ty = c.ty;
        return write_in(Family::from(ty), c.length as u32, v, buffer, out);
    }
    Err(Refusal::Rule)
}
