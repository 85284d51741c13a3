// The kinds of a fixed width: which kind a value has, how wide it is, which type lists it, and the
// number that stands in its bytes.
ghost use Rattle.std.specs.Prelude.{◌≡◌};
ghost use Rattle.format.specs.Scalar.{width, kind_of, place, is_one_of};
ghost use Rattle.format.specs.Value.{untyped_type};
ghost use Rattle.column_type.specs.Told.{byte_len_told};
ghost use Rattle.value_kind.specs.Told.{kind_told, listed_told, scalar_told, number_of};

use crate::Scalar;
use bits::float::{Float32, Float64};
use column_type::ByteLen;

#[derive(Clone, Copy, PartialEq, Eq)]
pub enum Kind {
    Bit = 1,
    U8 = 2,
    I16 = 3,
    I32 = 4,
    I64 = 5,
    F32 = 6,
    F64 = 7,
    Guid = 8,
}

// The kinds that a type with a length byte lists.
#[derive(Clone, Copy, PartialEq, Eq)]
pub enum Listed {
    Integers,
    Bits,
    Floats,
    Guids,
}

impl Kind {
    // How many bytes a value of the kind takes.
    pub fn bytes(self) -> usize
        ensures { result ≡ width (kind_told self) }
    {
        match self {
            Kind::Bit | Kind::U8 => 1,
            Kind::I16 => 2,
            Kind::I32 | Kind::F32 => 4,
            Kind::I64 | Kind::F64 => 8,
            Kind::Guid => 16,
        }
    }

    // The kind's place in the list of kinds.
    pub fn place(self) -> u8
        ensures { result ≡ place (kind_told self) }
    {
        self as u8
    }

    // The type of a value that is written with its own descriptor.
    pub fn untyped_type(self) -> ByteLen
        ensures { byte_len_told result ≡ untyped_type (kind_told self) }
    {
        match self {
            Kind::Bit => ByteLen::Bitn,
            Kind::U8 | Kind::I16 | Kind::I32 | Kind::I64 => ByteLen::Intn,
            Kind::F32 | Kind::F64 => ByteLen::Floatn,
            Kind::Guid => ByteLen::Guid,
        }
    }
}

impl Listed {
    // Does the type list the kind?
    pub fn lists(self, k: Kind) -> bool
        ensures { result ≡ is_one_of (listed_told self) (kind_told k) }
    {
        match self {
            Listed::Integers => matches!(k, Kind::U8 | Kind::I16 | Kind::I32 | Kind::I64),
            Listed::Bits => k == Kind::Bit,
            Listed::Floats => matches!(k, Kind::F32 | Kind::F64),
            Listed::Guids => k == Kind::Guid,
        }
    }
}

impl Scalar {
    // The kind of a value.
    pub fn kind(self) -> Kind
        ensures { kind_told result ≡ kind_of (scalar_told self) }
    {
        match self {
            Scalar::Bit(_) => Kind::Bit,
            Scalar::U8(_) => Kind::U8,
            Scalar::I16(_) => Kind::I16,
            Scalar::I32(_) => Kind::I32,
            Scalar::I64(_) => Kind::I64,
            Scalar::F32(_) | Scalar::F32Nan(_) => Kind::F32,
            Scalar::F64(_) | Scalar::F64Nan(_) => Kind::F64,
            Scalar::Guid(_) => Kind::Guid,
        }
    }

    // The number whose low bytes, as many as the kind is wide, are the value's; 0 for a GUID, whose
    // bytes are no such number.
    pub fn number(self) -> u64
        ensures { result ≡ number_of (scalar_told self) }
    {
        match self {
            Scalar::Bit(b) => u64::from(b),
            Scalar::U8(n) => n as u64,
            Scalar::I16(z) => bits::signed::of_i16(z) as u64,
            Scalar::I32(z) => bits::signed::of_i32(z) as u64,
            Scalar::I64(z) => bits::signed::of_i64(z),
            Scalar::F32(x) => u32::from(Float32::Value(x)) as u64,
            Scalar::F32Nan(n) => n as u64,
            Scalar::F64(x) => u64::from(Float64::Value(x)),
            Scalar::F64Nan(n) => n,
            Scalar::Guid(_) => 0,
        }
    }
}
