// A GUID, written: its sixteen bytes in wire order.

#![tactic(auto)]

pub mod inner;

ghost use Rattle.std.specs.Prelude.{◌≡◌, length};
ghost use Rattle.format.specs.Answer.{fitted, wrote, room_after};
ghost use Rattle.wire.specs.Told.{answer_told, write_guid};

use wire::{Guid, Refusal};

// The GUID's sixteen bytes in wire order, at the front of the room.
pub fn write_guid(g: Guid, out: &mut [u8]) -> Result<usize, Refusal>
    ensures answer { answer_told result ≡ wrote (fitted (write_guid g) (length out.old)) }
    ensures room { out.new ≡ room_after (fitted (write_guid g) (length out.old)) out.old }
{
    if out.len() < 16 {
        return Err(Refusal::Room);
    }
    inner::put_guid(out, 0, g);
    Ok(16)
}
