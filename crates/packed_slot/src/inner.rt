// The numbers of a value that was found, for the crates of this repository.
ghost use Rattle.std.specs.Prelude.{◌≡◌, [], ◌∷◌};
ghost use Rattle.format.specs.Number.{unsigned};
ghost use Rattle.value_kind.specs.Told.{scalar_told, Canonical};
ghost use Rattle.value_found.specs.Told.{stand_told, found_told, CanonicalFound};
ghost use Rattle.packed_slot.specs.Slots.{scalar_slot, content_slot, slot_of, slot_told};

use bits::signed;
use packed_value::{Slot, inner};
use value_found::{Found, Stand};
use value_kind::Scalar;

// An integer of two bytes in 64 bits.
fn wide16(z: i16) -> u64
    ensures { result ≡ unsigned 8 z }
{
    inner::widen_two(signed::of_i16(z))
}

// Of four bytes.
fn wide32(z: i32) -> u64
    ensures { result ≡ unsigned 8 z }
{
    inner::widen_four(signed::of_i32(z))
}

// A kind's number and one more.
pub fn one(kind: u64, first: u64) -> Slot
    ensures { slot_told result ≡ kind ∷ first ∷ 0 ∷ [] }
{
    Slot {
        kind,
        first,
        second: 0,
    }
}

// The numbers of a value of a fixed width.
fn scalar_slot(v: Scalar) -> Slot
    requires { Canonical v }
    ensures { slot_told result ≡ scalar_slot (scalar_told v) }
{
    let n = v.number();
    match v {
        Scalar::Bit(_) => one(1, n),
        Scalar::U8(_) => one(2, n),
        Scalar::I16(z) => one(3, wide16(z)),
        Scalar::I32(z) => one(4, wide32(z)),
        Scalar::I64(_) => one(5, n),
        Scalar::F32(_) => one(6, n),
        Scalar::F32Nan(_) => one(6, n),
        Scalar::F64(_) => one(7, n),
        Scalar::F64Nan(_) => one(7, n),
        Scalar::Guid(g) => Slot {
            kind: 8,
            first: g.high,
            second: g.low,
        },
    }
}

// Content, by where it stands: the kind's number in the row, and the one in the room.
fn content_slot(p: Stand, row: u64, room: u64) -> Slot
    ensures { slot_told result ≡ content_slot (stand_told p) row room }
{
    match p {
        Stand::Input(q) => Slot {
            kind: row,
            first: q.start as u64,
            second: q.count as u64,
        },
        Stand::Room(q) => Slot {
            kind: room,
            first: q.start as u64,
            second: q.count as u64,
        },
    }
}

// The numbers of a value.
pub fn slot_of(found: Found) -> Slot
    requires { CanonicalFound found }
    ensures { slot_told result ≡ slot_of (found_told found) }
{
    match found {
        Found::Null => one(0, 0),
        Found::Scalar(v) => scalar_slot(v),
        Found::Binary(p) => content_slot(p, 9, 11),
        Found::String(p) => content_slot(p, 10, 12),
    }
}
