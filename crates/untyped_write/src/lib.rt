// Untyped writing: a value with its own descriptor in front.

#![tactic(auto)]

mod inner;

ghost use Rattle.std.specs.Prelude.{◌≡◌, length};
ghost use Rattle.format.specs.Answer.{fitted, wrote, room_after};
ghost use Rattle.format.specs.Value.{write_untyped};
ghost use Rattle.wire.specs.Told.{answer_told};
ghost use Rattle.value_kind.specs.Told.{value_told};

use value_kind::Value;
use wire::Refusal;

// The value with its own descriptor in front, at the front of the room.
pub fn write_untyped(v: Value, buffer: &[u8], out: &mut [u8]) -> Result<usize, Refusal>
    ensures answer { answer_told result ≡ wrote (fitted (write_untyped (value_told buffer.now v)) (length out.old)) }
    ensures room { out.new ≡ room_after (fitted (write_untyped (value_told buffer.now v)) (length out.old)) out.old }
{
    let m = untyped_size::untyped_size(v, buffer)?;
    if out.len() < m {
        return Err(Refusal::Room);
    }
    inner::fill_untyped(v, buffer, &mut out[..m]);
    Ok(m)
}
