// A column's type as people write it.

#![tactic(auto)]

use column_type::{ByteLen, Column, TypeId, UShortLen};
use show_name::TypeName;
use wire::marks;

fn byte(t: ByteLen, c: Column) -> TypeName {
    let n = c.length;
    match t {
        ByteLen::Guid => show_name::only(n, 16, "uniqueidentifier"),
        ByteLen::Intn => show_name::integer(n),
        ByteLen::Bitn => show_name::only(n, 1, "bit"),
        ByteLen::Decimaln => TypeName::Exact("decimal", c.precision, c.scale),
        ByteLen::Numericn => TypeName::Exact("numeric", c.precision, c.scale),
        ByteLen::Floatn => show_name::four_eight(n, "real", "float(53)", "floatn"),
        ByteLen::Moneyn => show_name::four_eight(n, "smallmoney", "money", "moneyn"),
        ByteLen::Datetimen => show_name::four_eight(n, "smalldatetime", "datetime", "datetimen"),
        ByteLen::Timen => TypeName::Sized("time", n),
        ByteLen::Datetime2 => TypeName::Sized("datetime2", n),
        ByteLen::DatetimeOffsetn => TypeName::Sized("datetimeoffset", n),
    }
}

// A type of content that is counted in bytes.
fn bytes(name: &'static str, n: u64) -> TypeName {
    if n == marks::PLP_MARK as u64 {
        return TypeName::Unbounded(name);
    }
    TypeName::Sized(name, n)
}

// A type of content that is counted in letters of two bytes.
fn letters(name: &'static str, n: u64) -> TypeName {
    if n == marks::PLP_MARK as u64 {
        return TypeName::Unbounded(name);
    }
    if n % 2 == 0 {
        return TypeName::Sized(name, n / 2);
    }
    TypeName::Odd(name, n)
}

fn short(t: UShortLen, n: u64) -> TypeName {
    match t {
        UShortLen::BigVarBin => bytes("varbinary", n),
        UShortLen::BigVarChar => bytes("varchar", n),
        UShortLen::BigBinary => bytes("binary", n),
        UShortLen::BigChar => bytes("char", n),
        UShortLen::NVarchar => letters("nvarchar", n),
        UShortLen::NChar => letters("nchar", n),
    }
}

pub fn type_name(c: Column) -> TypeName {
    match c.ty {
        TypeId::Fixed(t) => show_name::fixed(t),
        TypeId::Byte(t) => byte(t, c),
        TypeId::UShort(t) => short(t, c.length),
        TypeId::Long(t) => show_name::long(t),
        TypeId::Daten => TypeName::Plain("date"),
        TypeId::Xml => TypeName::Plain("xml"),
        TypeId::Udt => TypeName::Plain("udt"),
        TypeId::SsVariant => TypeName::Plain("sql_variant"),
    }
}
