// Values to be written as three numbers each: whether three numbers are a value, and the value.

#![tactic(auto)]

pub mod inner;

ghost use Rattle.std.specs.Prelude.{◌≡◌, length};
ghost use Rattle.packed.specs.Each.{parts_of};
ghost use Rattle.packed_value.specs.Numbers.{is_number, is_value, no_value, no_values};
ghost use Rattle.packed_value.specs.Made.{judged_told};

use bits::float::{Float32, Float64};
use bits::signed;
use value_kind::{Scalar, Span, Value};
use wire::{Guid, Refusal};

// The three numbers of a value: its kind's, and two more.
#[derive(Clone, Copy)]
pub struct Slot {
    pub kind: u64,
    pub first: u64,
    pub second: u64,
}

// Is there a value of the kind with this number?
fn is_number(kind: u64, n: u64) -> bool
    ensures { result ≡ is_number kind n }
{
    match kind {
        0 => n == 0,
        1 => n < 2,
        2 => n < 256,
        3 => n == inner::widen_two((n % 65536) as u16),
        4 => n == inner::widen_four((n % 4294967296) as u32),
        6 => n < 4294967296,
        _ => true,
    }
}

impl Slot {
    // Is there a value with these numbers?
    pub fn is_value(self) -> bool
        ensures { result ≡ is_value self.kind self.first self.second }
    {
        if 7 < self.kind {
            return self.kind < 11;
        }
        self.second == 0 && is_number(self.kind, self.first)
    }
}

// The value of three numbers. Numbers that are none make some value all the same: whoever calls has
// judged them.
impl From<Slot> for Value {
    ghost use Rattle.std.specs.Prelude.{◌≡◌};
    ghost use Rattle.packed_value.specs.Made.{value_made};

    ghost from_gives = { λ s v. v ≡ value_made s.kind s.first s.second };

    fn from(s: Slot) -> Value {
        match s.kind {
            1 => Value::Scalar(Scalar::Bit(s.first != 0)),
            2 => Value::Scalar(Scalar::U8((s.first % 256) as u8)),
            3 => Value::Scalar(Scalar::I16(signed::to_i16((s.first % 65536) as u16))),
            4 => Value::Scalar(Scalar::I32(signed::to_i32((s.first % 4294967296) as u32))),
            5 => Value::Scalar(Scalar::I64(signed::to_i64(s.first))),
            6 => Value::Scalar(Scalar::from(Float32::from((s.first % 4294967296) as u32))),
            7 => Value::Scalar(Scalar::from(Float64::from(s.first))),
            8 => Value::Scalar(Scalar::Guid(Guid {
                high: s.first,
                low: s.second,
            })),
            9 => Value::Binary(Span {
                start: s.first as usize,
                count: s.second as usize,
            }),
            10 => Value::String(Span {
                start: s.first as usize,
                count: s.second as usize,
            }),
            _ => Value::Null,
        }
    }
}

// Why the three numbers that a list begins with are no value.
pub fn judge_value(v: &[u64]) -> Result<(), Refusal>
    ensures { judged_told result ≡ no_value v.now }
{
    if v.len() < 3 {
        return Err(Refusal::Rule);
    }
    if Slot::at(v, 0).is_value() {
        return Ok(());
    }
    Err(Refusal::Kind)
}

// How many values a list has; a cut last one is one.
pub fn count(values: &[u64]) -> usize
    ensures { result ≡ parts_of 3 (length values.now) }
{
    values.len().div_ceil(3)
}

// Why the values of a list are none, from the left.
pub fn judge_values(values: &[u64]) -> Result<(), Refusal>
    ensures { judged_told result ≡ no_values values.now }
{
    for i in 0..count(values) {
        let at = 3 * i;
        judge_value(&values[at..])?;
    }
    Ok(())
}
