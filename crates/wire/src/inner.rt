// Leaves that ask something of their caller, for the crates of this repository: bytes, numbers and
// GUIDs at a place that lies inside, and the copy of a part.
ghost use Rattle.std.specs.Prelude.{◌≡◌, ◌+◌, ◌≤◌, length, take, drop};
ghost use Rattle.wire.specs.Told.{guid_text};

use crate::Guid;
pub use number::inner::{copy, high_at, low_at, paste, put_byte, put_high, put_low};

// The GUID whose sixteen bytes in wire order stand at at: three numbers low byte first, then eight
// bytes as they are.
pub fn guid_at(s: &[u8], at: usize) -> Guid
    requires { at + 16 ≤ length s.now }
    ensures { result ≡ guid_text (take 16 (drop at s.now)) }
{
    let first = low_at(s, at, 4);
    let second = low_at(s, at + 4, 2);
    let third = low_at(s, at + 6, 2);
    let low = high_at(s, at + 8, 8);
    Guid {
        high: (first * 65536 + second) * 65536 + third,
        low,
    }
}
