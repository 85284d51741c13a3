// TYPE_INFO, writing: the size first, with every refusal but 4, then the stores, none of which can
// fail.

#![tactic(auto)]

ghost use Rattle.std.specs.Prelude.{◌≡◌, length};
ghost use Rattle.format.specs.Answer.{fitted, wrote, room_after};
ghost use Rattle.format.specs.Descriptor.{write_column};
ghost use Rattle.wire.specs.Told.{answer_told};
ghost use Rattle.column_type.specs.Told.{column_told};

use column_type::Column;
use wire::{Refusal, inner};

// The descriptor at the front of the room.
pub fn write_column(c: Column, names: &[u8], out: &mut [u8]) -> Result<usize, Refusal>
    ensures answer { answer_told result ≡ wrote (fitted (write_column (column_told names.now c)) (length out.old)) }
    ensures room { out.new ≡ room_after (fitted (write_column (column_told names.now c)) (length out.old)) out.old }
{
    let n = column_size::column_size(c, names)?;
    if out.len() < n {
        return Err(Refusal::Room);
    }
    column_put::inner::put_column(out, c, names);
    Ok(n)
}
