// The type byte, both ways.
ghost use Rattle.std.specs.Prelude.{◌≡◌};

use crate::{ByteLen, FixedLen, LongLen, TypeId, UShortLen};
use wire::Refusal;

// The byte of a type of each family.
impl From<FixedLen> for u8 {
    ghost use Rattle.format.specs.Descriptor.{fixed_byte};
    ghost use Rattle.column_type.specs.Told.{fixed_told};

    ghost from_gives = { λ t b. b ≡ fixed_byte (fixed_told t) };

    fn from(t: FixedLen) -> u8 {
        t as u8
    }
}

// One length byte.
impl From<ByteLen> for u8 {
    ghost use Rattle.format.specs.Descriptor.{byte_len_byte};
    ghost use Rattle.column_type.specs.Told.{byte_len_told};

    ghost from_gives = { λ t b. b ≡ byte_len_byte (byte_len_told t) };

    fn from(t: ByteLen) -> u8 {
        t as u8
    }
}

// Two length bytes.
impl From<UShortLen> for u8 {
    ghost use Rattle.format.specs.Descriptor.{u_short_len_byte};
    ghost use Rattle.column_type.specs.Told.{u_short_len_told};

    ghost from_gives = { λ t b. b ≡ u_short_len_byte (u_short_len_told t) };

    fn from(t: UShortLen) -> u8 {
        t as u8
    }
}

// Four length bytes.
impl From<LongLen> for u8 {
    ghost use Rattle.format.specs.Descriptor.{long_len_byte};
    ghost use Rattle.column_type.specs.Told.{long_len_told};

    ghost from_gives = { λ t b. b ≡ long_len_byte (long_len_told t) };

    fn from(t: LongLen) -> u8 {
        t as u8
    }
}

// The type's byte.
impl From<TypeId> for u8 {
    ghost use Rattle.format.specs.Descriptor.{type_byte};
    ghost use Rattle.column_type.specs.Told.{type_told};

    ghost from_gives = { λ t b. b ≡ type_byte (type_told t) };

    fn from(t: TypeId) -> u8 {
        match t {
            TypeId::Fixed(f) => f as u8,
            TypeId::Byte(f) => f as u8,
            TypeId::UShort(f) => f as u8,
            TypeId::Long(f) => f as u8,
            TypeId::Daten => 0x28,
            TypeId::Xml => 0xF1,
            TypeId::Udt => 0xF0,
            TypeId::SsVariant => 0x62,
        }
    }
}

// The type whose byte it is.
impl TryFrom<u8> for TypeId {
    ghost use Rattle.format.specs.Descriptor.{type_of};
    ghost use Rattle.column_type.specs.Told.{type_read_told};

    type Error = Refusal;

    ghost try_from_gives = { λ b r. type_read_told r ≡ type_of b };

    #[tactic(auto, unfolding(format::specs::Descriptor::type_of))]
    fn try_from(b: u8) -> Result<TypeId, Refusal> {
        match b {
            0x1F => Ok(TypeId::Fixed(FixedLen::Null)),
            0x30 => Ok(TypeId::Fixed(FixedLen::Int1)),
            0x32 => Ok(TypeId::Fixed(FixedLen::Bit)),
            0x34 => Ok(TypeId::Fixed(FixedLen::Int2)),
            0x38 => Ok(TypeId::Fixed(FixedLen::Int4)),
            0x3A => Ok(TypeId::Fixed(FixedLen::Datetime4)),
            0x3B => Ok(TypeId::Fixed(FixedLen::Float4)),
            0x3C => Ok(TypeId::Fixed(FixedLen::Money)),
            0x3D => Ok(TypeId::Fixed(FixedLen::Datetime)),
            0x3E => Ok(TypeId::Fixed(FixedLen::Float8)),
            0x7A => Ok(TypeId::Fixed(FixedLen::Money4)),
            0x7F => Ok(TypeId::Fixed(FixedLen::Int8)),
            0x24 => Ok(TypeId::Byte(ByteLen::Guid)),
            0x26 => Ok(TypeId::Byte(ByteLen::Intn)),
            0x68 => Ok(TypeId::Byte(ByteLen::Bitn)),
            0x6A => Ok(TypeId::Byte(ByteLen::Decimaln)),
            0x6C => Ok(TypeId::Byte(ByteLen::Numericn)),
            0x6D => Ok(TypeId::Byte(ByteLen::Floatn)),
            0x6E => Ok(TypeId::Byte(ByteLen::Moneyn)),
            0x6F => Ok(TypeId::Byte(ByteLen::Datetimen)),
            0x29 => Ok(TypeId::Byte(ByteLen::Timen)),
            0x2A => Ok(TypeId::Byte(ByteLen::Datetime2)),
            0x2B => Ok(TypeId::Byte(ByteLen::DatetimeOffsetn)),
            0xA5 => Ok(TypeId::UShort(UShortLen::BigVarBin)),
            0xA7 => Ok(TypeId::UShort(UShortLen::BigVarChar)),
            0xAD => Ok(TypeId::UShort(UShortLen::BigBinary)),
            0xAF => Ok(TypeId::UShort(UShortLen::BigChar)),
            0xE7 => Ok(TypeId::UShort(UShortLen::NVarchar)),
            0xEF => Ok(TypeId::UShort(UShortLen::NChar)),
            0x22 => Ok(TypeId::Long(LongLen::Image)),
            0x23 => Ok(TypeId::Long(LongLen::Text)),
            0x63 => Ok(TypeId::Long(LongLen::NText)),
            0x28 => Ok(TypeId::Daten),
            0xF1 => Ok(TypeId::Xml),
            0xF0 => Ok(TypeId::Udt),
            0x62 => Ok(TypeId::SsVariant),
            _ => Err(Refusal::Unknown),
        }
    }
}
