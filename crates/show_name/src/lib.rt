// The names of types as people write them: one name, or one with numbers in brackets.

#![tactic(auto)]

use column_type::{FixedLen, LongLen};
use std::fmt;

#[derive(Clone, Copy)]
pub enum TypeName {
    Plain(&'static str),
    // A type with a number in brackets.
    Sized(&'static str, u64),
    // A type with precision and scale.
    Exact(&'static str, u8, u8),
    // A type of letters whose bytes are no whole number of them.
    Odd(&'static str, u64),
    // A type of content that has no bound of its own.
    Unbounded(&'static str),
}

impl fmt::Display for TypeName {
    fn fmt<W: fmt::Write>(&self, f: &mut fmt::Formatter<W>) -> fmt::Result {
        match *self {
            TypeName::Plain(name) => f.write_str(name),
            TypeName::Sized(name, n) => write!(f, "{name}({n})"),
            TypeName::Exact(name, precision, scale) => write!(f, "{name}({precision},{scale})"),
            TypeName::Odd(name, n) => write!(f, "{name}({n} bytes)"),
            TypeName::Unbounded(name) => write!(f, "{name}(max)"),
        }
    }
}

pub fn fixed(t: FixedLen) -> TypeName {
    TypeName::Plain(match t {
        FixedLen::Null => "null",
        FixedLen::Int1 => "tinyint",
        FixedLen::Bit => "bit",
        FixedLen::Int2 => "smallint",
        FixedLen::Int4 => "int",
        FixedLen::Datetime4 => "smalldatetime",
        FixedLen::Float4 => "real",
        FixedLen::Money => "money",
        FixedLen::Datetime => "datetime",
        FixedLen::Float8 => "float(53)",
        FixedLen::Money4 => "smallmoney",
        FixedLen::Int8 => "bigint",
    })
}

pub fn long(t: LongLen) -> TypeName {
    TypeName::Plain(match t {
        LongLen::Image => "image",
        LongLen::Text => "text",
        LongLen::NText => "ntext",
    })
}

// An integer type by its declared length.
pub fn integer(n: u64) -> TypeName {
    match n {
        1 => TypeName::Plain("tinyint"),
        2 => TypeName::Plain("smallint"),
        4 => TypeName::Plain("int"),
        8 => TypeName::Plain("bigint"),
        _ => TypeName::Sized("intn", n),
    }
}

// A type that has one name at 4 bytes and another at 8.
pub fn four_eight(
    n: u64,
    four: &'static str,
    eight: &'static str,
    other: &'static str,
) -> TypeName {
    match n {
        4 => TypeName::Plain(four),
        8 => TypeName::Plain(eight),
        _ => TypeName::Sized(other, n),
    }
}

// A type that has one length.
pub fn only(n: u64, one: u64, name: &'static str) -> TypeName {
    if n == one {
        return TypeName::Plain(name);
    }
    TypeName::Sized(name, n)
}
