// The carried types, by the form of their values.
ghost use Rattle.std.specs.Prelude.{◌≡◌};
ghost use Rattle.format.specs.Value.{fixed_family, byte_len_family, u_short_len_family, is_text};
ghost use Rattle.column_type.specs.Told.{fixed_told, byte_len_told, u_short_len_told};
ghost use Rattle.value_kind.specs.Told.{family_told, content_kind_told};

use crate::kinds::{Kind, Listed};
use column_type::{ByteLen, FixedLen, TypeId, UShortLen};

#[derive(Clone, Copy, PartialEq, Eq)]
pub enum ContentKind {
    Binary,
    String,
}

// The bytes alone, a length byte and one of the listed kinds, content behind its length; or a type
// whose values are not carried.
#[derive(Clone, Copy)]
pub enum Family {
    Fixed(Kind),
    LengthByte(Listed),
    Content(ContentKind),
    NotCarried,
}

impl ContentKind {
    // Is an even count of content bytes asked?
    pub fn is_text(self) -> bool
        ensures { result ≡ is_text (content_kind_told self) }
    {
        matches!(self, ContentKind::String)
    }
}

// The forms of the fixed types.
fn fixed_family(t: FixedLen) -> Family
    ensures { family_told result ≡ fixed_family (fixed_told t) }
{
    match t {
        FixedLen::Int1 => Family::Fixed(Kind::U8),
        FixedLen::Bit => Family::Fixed(Kind::Bit),
        FixedLen::Int2 => Family::Fixed(Kind::I16),
        FixedLen::Int4 => Family::Fixed(Kind::I32),
        FixedLen::Float4 => Family::Fixed(Kind::F32),
        FixedLen::Float8 => Family::Fixed(Kind::F64),
        FixedLen::Int8 => Family::Fixed(Kind::I64),
        FixedLen::Null
        | FixedLen::Datetime4
        | FixedLen::Money
        | FixedLen::Datetime
        | FixedLen::Money4 => Family::NotCarried,
    }
}

// Of the types with one length byte.
fn byte_len_family(t: ByteLen) -> Family
    ensures { family_told result ≡ byte_len_family (byte_len_told t) }
{
    match t {
        ByteLen::Guid => Family::LengthByte(Listed::Guids),
        ByteLen::Intn => Family::LengthByte(Listed::Integers),
        ByteLen::Bitn => Family::LengthByte(Listed::Bits),
        ByteLen::Floatn => Family::LengthByte(Listed::Floats),
        ByteLen::Decimaln
        | ByteLen::Numericn
        | ByteLen::Moneyn
        | ByteLen::Datetimen
        | ByteLen::Timen
        | ByteLen::Datetime2
        | ByteLen::DatetimeOffsetn => Family::NotCarried,
    }
}

// Of those with two.
fn u_short_len_family(t: UShortLen) -> Family
    ensures { family_told result ≡ u_short_len_family (u_short_len_told t) }
{
    match t {
        UShortLen::BigVarBin | UShortLen::BigBinary => Family::Content(ContentKind::Binary),
        UShortLen::NVarchar | UShortLen::NChar => Family::Content(ContentKind::String),
        UShortLen::BigVarChar | UShortLen::BigChar => Family::NotCarried,
    }
}

// The form of the type's values.
impl From<TypeId> for Family {
    ghost use Rattle.std.specs.Prelude.{◌≡◌};
    ghost use Rattle.format.specs.Value.{family_of};
    ghost use Rattle.column_type.specs.Told.{type_told};
    ghost use Rattle.value_kind.specs.Told.{family_told};

    ghost from_gives = { λ t f. family_told f ≡ family_of (type_told t) };

    fn from(t: TypeId) -> Family {
        match t {
            TypeId::Fixed(f) => fixed_family(f),
            TypeId::Byte(f) => byte_len_family(f),
            TypeId::UShort(f) => u_short_len_family(f),
            TypeId::Long(_) | TypeId::Daten | TypeId::Xml | TypeId::Udt | TypeId::SsVariant => {
                Family::NotCarried
            }
        }
    }
}
