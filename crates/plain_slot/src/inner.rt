// The numbers of a value that is there, for the crates of this repository.
ghost use Rattle.std.specs.Prelude.{◌≡◌, ◌+◌, ◌≤◌, length, take, drop, Some};
ghost use Rattle.format.specs.Scalar.{width, scalar_of};
ghost use Rattle.format.specs.Scalar as S;
ghost use Rattle.value_kind.specs.Told.{kind_told};
ghost use Rattle.packed_slot.specs.Slots.{scalar_slot, slot_told};
ghost use Rattle.packed_plain.specs.declared.Plain.TheVariants as P;
ghost use Rattle.plain_look.specs.Stands.{value_in, HasBytes};
ghost use Rattle.plain_slot.specs.Slots.{value_slot};

use packed_plain::Plain;
use packed_slot::inner as slot;
use packed_value::{Slot, inner as three};
use value_kind::kinds::Kind;
use wire::inner;

// A GUID by its two halves in text order.
fn guid_slot(s: &[u8], at: usize) -> Slot
    requires { at + 16 ≤ length s.now }
    ensures { slot_told result ≡ scalar_slot (scalar_of S.Kind.guid (take 16 (drop at s.now))) }
{
    let g = inner::guid_at(s, at);
    Slot {
        kind: 8,
        first: g.high,
        second: g.low,
    }
}

// The kind's number and the number that its bytes at a place stand for. Bits do not come here.
fn slot_at(k: Kind, s: &[u8], at: usize) -> Slot
    requires { (at + width (kind_told k) ≤ length s.now) × (kind_told k ≡ S.Kind.bit → ⊥) }
    ensures { slot_told result ≡ scalar_slot (scalar_of (kind_told k) (take (width (kind_told k)) (drop at s.now))) }
{
    match k {
        Kind::Bit => slot::one(1, 0),
        Kind::U8 => slot::one(2, inner::low_at(s, at, 1)),
        Kind::I16 => slot::one(3, three::widen_two(inner::low_at(s, at, 2) as u16)),
        Kind::I32 => slot::one(4, three::widen_four(inner::low_at(s, at, 4) as u32)),
        Kind::I64 => slot::one(5, inner::low_at(s, at, 8)),
        Kind::F32 => slot::one(6, inner::low_at(s, at, 4)),
        Kind::F64 => slot::one(7, inner::low_at(s, at, 8)),
        Kind::Guid => guid_slot(s, at),
    }
}

// Null, or the kind behind its count.
fn counted_slot(k: Kind, s: &[u8], at: usize) -> Slot
    requires { HasBytes (Some (P.Counted k)) (drop at s.now) }
    ensures { slot_told result ≡ value_slot (value_in (Some (P.Counted k)) (drop at s.now)) }
{
    if s[at] == 0 {
        return slot::one(0, 0);
    }
    slot_at(k, s, at + 1)
}

// The value at a place, under what was told of its column; null where nothing was told.
pub fn slot_in(p: Option<Plain>, s: &[u8], at: usize) -> Slot
    requires { HasBytes p (drop at s.now) }
    ensures { slot_told result ≡ value_slot (value_in p (drop at s.now)) }
{
    match p {
        Some(Plain::Bare(k)) => slot_at(k, s, at),
        Some(Plain::Counted(k)) => counted_slot(k, s, at),
        None => slot::one(0, 0),
    }
}
