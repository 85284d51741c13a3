// kinds and families

#![tactic(auto)]

pub mod family;
pub mod kinds;

ghost use Rattle.std.specs.Prelude.{◌≡◌};

use bits::float::{Float32, Float64};
use wire::Guid;

// A value of a fixed width. A NaN's pattern is a case of its own beside the float.
#[derive(Clone, Copy)]
pub enum Scalar {
    Bit(bool),
    U8(u8),
    I16(i16),
    I32(i32),
    I64(i64),
    F32(f32),
    F32Nan(u32),
    F64(f64),
    F64Nan(u64),
    Guid(Guid),
}

// A float that was read, or a NaN by its pattern.
impl From<Float32> for Scalar {
    ghost use Rattle.value_kind.specs.Told.{made32};

    ghost from_gives = { λ x s. s ≡ made32 x };

    fn from(x: Float32) -> Scalar {
        match x {
            Float32::Value(v) => Scalar::F32(v),
            Float32::Nan(n) => Scalar::F32Nan(n),
        }
    }
}

impl From<Float64> for Scalar {
    ghost use Rattle.value_kind.specs.Told.{made64};

    ghost from_gives = { λ x s. s ≡ made64 x };

    fn from(x: Float64) -> Scalar {
        match x {
            Float64::Value(v) => Scalar::F64(v),
            Float64::Nan(n) => Scalar::F64Nan(n),
        }
    }
}

// A part of the lent buffer.
#[derive(Clone, Copy)]
pub struct Span {
    pub start: usize,
    pub count: usize,
}

// A value to be written: binary and string content are spans of the lent buffer, a string's in UTF-8.
#[derive(Clone, Copy)]
pub enum Value {
    Null,
    Scalar(Scalar),
    Binary(Span),
    String(Span),
}
