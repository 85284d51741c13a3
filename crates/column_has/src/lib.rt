// What a type's descriptor has behind its type byte.

#![tactic(auto)]

ghost use Rattle.std.specs.Prelude.{◌≡◌};
ghost use Rattle.format.specs.Descriptor.{has_digits, has_collation, length_width, is_described};
ghost use Rattle.column_type.specs.Told.{type_told, is_xml};

use column_type::{ByteLen, LongLen, TypeId, UShortLen};

// Daten's length, which its descriptor does not say.
pub const DATEN_LENGTH: u64 = 3;

// Whether precision and scale follow the length: the two decimal types have them.
pub fn has_digits(t: TypeId) -> bool
    ensures { result ≡ has_digits (type_told t) }
{
    matches!(t, TypeId::Byte(ByteLen::Decimaln | ByteLen::Numericn))
}

// Whether a collation follows the length: the types of text have one.
pub fn has_collation(t: TypeId) -> bool
    ensures { result ≡ has_collation (type_told t) }
{
    matches!(
        t,
        TypeId::UShort(
            UShortLen::BigVarChar | UShortLen::BigChar | UShortLen::NVarchar | UShortLen::NChar
        ) | TypeId::Long(LongLen::Text | LongLen::NText)
    )
}

// How many bytes the length takes.
pub fn length_width(t: TypeId) -> usize
    ensures { result ≡ length_width (type_told t) }
{
    match t {
        TypeId::Byte(_) => 1,
        TypeId::UShort(_) => 2,
        TypeId::Long(_) => 4,
        TypeId::Fixed(_) | TypeId::Daten | TypeId::Xml | TypeId::Udt | TypeId::SsVariant => 0,
    }
}

// Udt and SsVariant have no descriptor here.
pub fn is_described(t: TypeId) -> bool
    ensures { result ≡ is_described (type_told t) }
{
    !matches!(t, TypeId::Udt | TypeId::SsVariant)
}

// Xml alone has a schema.
pub fn is_xml(t: TypeId) -> bool
    ensures { result ≡ is_xml (type_told t) }
{
    matches!(t, TypeId::Xml)
}
