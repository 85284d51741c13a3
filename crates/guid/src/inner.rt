// The leaf that asks for room, for the crates of this repository.
ghost use Rattle.std.specs.Prelude.{◌≡◌, ◌+◌, ◌≤◌, length};
ghost use Rattle.std.proofs.lemmas.List.Edits.{sets};
ghost use Rattle.wire.specs.Told.{guid_wire};

use number::inner::{put_high, put_low};
use wire::Guid;

// The GUID's sixteen bytes in wire order, from at.
pub fn put_guid(out: &mut [u8], at: usize, g: Guid)
    requires { at + 16 ≤ length out.old }
    ensures { out.new ≡ sets out.old at (guid_wire g) }
{
    let high = g.high;
    let low = g.low;
    put_low(out, at, high / 4294967296, 4);
    put_low(out, at + 4, high / 65536, 2);
    put_low(out, at + 6, high, 2);
    put_high(out, at + 8, low, 8);
}
