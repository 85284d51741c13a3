// The value at a place of a list, and integers of few bytes in 64 bits, for the crates of this
// repository.
ghost use Rattle.std.specs.Prelude.{◌≡◌, ◌≤◌, ◌*◌, ◌+◌, length, drop, slice_index};
ghost use Rattle.format.specs.Number.{signed, unsigned};
ghost use Rattle.packed_value.specs.Made.{given_made};

use crate::Slot;
use bits::signed;
use value_kind::Value;

// The integer of two bytes whose bits these are, in 64 bits.
pub fn widen_two(n: u16) -> u64
    ensures { result ≡ unsigned 8 (signed 2 n) }
{
    signed::of_i64(i64::from(signed::to_i16(n)))
}

// Of four bytes.
pub fn widen_four(n: u32) -> u64
    ensures { result ≡ unsigned 8 (signed 4 n) }
{
    signed::of_i64(i64::from(signed::to_i32(n)))
}

impl Slot {
    // The three numbers at a place of a list.
    pub fn at(values: &[u64], at: usize) -> Slot
        requires { at + 3 ≤ length values.now }
        ensures kind { result.kind ≡ slice_index values.now at }
        ensures first { result.first ≡ slice_index values.now (at + 1) }
        ensures second { result.second ≡ slice_index values.now (at + 2) }
    {
        Slot {
            kind: values[at],
            first: values[at + 1],
            second: values[at + 2],
        }
    }
}

// The value at i, from the left.
pub fn value_at(values: &[u64], i: usize) -> Value
    requires { 3 * i + 3 ≤ length values.now }
    ensures { result ≡ given_made (drop (3 * i) values.now) }
{
    Value::from(Slot::at(values, 3 * i))
}
