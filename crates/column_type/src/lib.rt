// TYPE_INFO, a column's descriptor: the types, by the form of their descriptor and with their type
// bytes, and the record.

#![tactic(auto)]

mod byte;

ghost use Rattle.std.specs.Prelude.{◌≡◌};
ghost use Rattle.column_type.specs.Told.{plain_column};

use wire::{Cursor, Refusal};

// FIXEDLENTYPE: no length in the descriptor.
#[derive(Clone, Copy, Debug, PartialEq, Eq)]
pub enum FixedLen {
    Null = 0x1F,
    Int1 = 0x30,
    Bit = 0x32,
    Int2 = 0x34,
    Int4 = 0x38,
    Datetime4 = 0x3A,
    Float4 = 0x3B,
    Money = 0x3C,
    Datetime = 0x3D,
    Float8 = 0x3E,
    Money4 = 0x7A,
    Int8 = 0x7F,
}

// BYTELEN_TYPE: one length byte.
#[derive(Clone, Copy, Debug, PartialEq, Eq)]
pub enum ByteLen {
    Guid = 0x24,
    Intn = 0x26,
    Bitn = 0x68,
    Decimaln = 0x6A,
    Numericn = 0x6C,
    Floatn = 0x6D,
    Moneyn = 0x6E,
    Datetimen = 0x6F,
    Timen = 0x29,
    Datetime2 = 0x2A,
    DatetimeOffsetn = 0x2B,
}

// USHORTLEN_TYPE: two length bytes.
#[derive(Clone, Copy, Debug, PartialEq, Eq)]
pub enum UShortLen {
    BigVarBin = 0xA5,
    BigVarChar = 0xA7,
    BigBinary = 0xAD,
    BigChar = 0xAF,
    NVarchar = 0xE7,
    NChar = 0xEF,
}

// LONGLEN_TYPE: four length bytes.
#[derive(Clone, Copy, Debug, PartialEq, Eq)]
pub enum LongLen {
    Image = 0x22,
    Text = 0x23,
    NText = 0x63,
}

// The types, by the form of their descriptor.
#[derive(Clone, Copy, Debug, PartialEq, Eq)]
pub enum TypeId {
    Fixed(FixedLen),
    Byte(ByteLen),
    UShort(UShortLen),
    Long(LongLen),
    Daten,
    Xml,
    Udt,
    SsVariant,
}

// COLLATION's four bytes as a number, and its sort byte.
#[derive(Clone, Copy)]
pub struct Collation {
    pub info: u32,
    pub sort: u8,
}

// A name of XML_INFO: a span of the lent buffer, its start byte and its count of UTF-16 units.
#[derive(Clone, Copy)]
pub struct Name {
    pub start: usize,
    pub units: usize,
}

// XML_INFO's names: database, owning schema and schema collection.
#[derive(Clone, Copy)]
pub struct Schema {
    pub database: Name,
    pub owner: Name,
    pub collection: Name,
}

#[derive(Clone, Copy)]
pub struct Column {
    pub ty: TypeId,
    pub length: u64,
    pub precision: u8,
    pub scale: u8,
    pub collation: Option<Collation>,
    pub schema: Option<Schema>,
}

// A column with a type and a length, and nothing else.
pub fn plain(t: TypeId, n: u64) -> Column
    ensures { result ≡ plain_column t n }
{
    Column {
        ty: t,
        length: n,
        precision: 0,
        scale: 0,
        collation: None,
        schema: None,
    }
}
