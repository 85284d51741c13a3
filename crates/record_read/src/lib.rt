// A descriptor of one of the common forms, read as the numbers of its record, and the record of 16
// bytes made of them. No column is made.

#![tactic(auto)]

ghost use Rattle.std.specs.Prelude.{◌≡◌};
ghost use Rattle.record_read.specs.Told.{low, bare, AloneAt, ByteAt, DigitsAt, ShortAt, TextAt, record_made, IsRead};

use column_form::Form;

// What stands in a record but its zeros, and how many bytes the descriptor takes.
#[derive(Clone, Copy)]
pub struct Fields {
    pub size: usize,
    pub ty: u8,
    pub flags: u8,
    pub precision: u8,
    pub scale: u8,
    pub length: u64,
    pub info: u64,
    pub sort: u8,
}

// The lowest byte.
fn low(n: u64) -> u8
    ensures { result ≡ low n }
{
    (n % 256) as u8
}

// A type and a length.
fn bare(size: usize, ty: u8, length: u64) -> Fields
    ensures { result ≡ bare size ty length }
{
    Fields {
        size,
        ty,
        flags: 0,
        precision: 0,
        scale: 0,
        length,
        info: 0,
        sort: 0,
    }
}

// The type byte alone.
fn read_alone(rest: &[u8]) -> Option<Fields>
    requires { AloneAt rest.now }
    ensures { IsRead rest.now result }
{
    Some(bare(1, rest[0], 0))
}

// A length of one byte behind it.
fn read_byte(rest: &[u8]) -> Option<Fields>
    requires { ByteAt rest.now }
    ensures { IsRead rest.now result }
{
    if rest.len() < 2 {
        return None;
    }
    Some(bare(2, rest[0], u64::from(rest[1])))
}

// The same, then precision and scale.
fn read_digits(rest: &[u8]) -> Option<Fields>
    requires { DigitsAt rest.now }
    ensures { IsRead rest.now result }
{
    if rest.len() < 4 {
        return None;
    }
    Some(Fields {
        size: 4,
        ty: rest[0],
        flags: 0,
        precision: rest[2],
        scale: rest[3],
        length: u64::from(rest[1]),
        info: 0,
        sort: 0,
    })
}

// A length of two bytes.
fn read_short(rest: &[u8]) -> Option<Fields>
    requires { ShortAt rest.now }
    ensures { IsRead rest.now result }
{
    if rest.len() < 3 {
        return None;
    }
    Some(bare(3, rest[0], wire::inner::low_at(rest, 1, 2)))
}

// The same, then a collation.
fn read_text(rest: &[u8]) -> Option<Fields>
    requires { TextAt rest.now }
    ensures { IsRead rest.now result }
{
    if rest.len() < 8 {
        return None;
    }
    let length = wire::inner::low_at(rest, 1, 2);
    let info = wire::inner::low_at(rest, 3, 4);
    Some(Fields {
        size: 8,
        ty: rest[0],
        flags: 1,
        precision: 0,
        scale: 0,
        length,
        info,
        sort: rest[7],
    })
}

// The descriptor that the rest of the bytes begins with, if it has one of the forms and all its bytes
// are there.
pub fn read_fields(rest: &[u8]) -> Option<Fields>
    ensures { IsRead rest.now result }
{
    if rest.len() < 1 {
        return None;
    }
    match column_form::form_of(rest[0]) {
        Form::Alone => read_alone(rest),
        Form::Byte => read_byte(rest),
        Form::Digits => read_digits(rest),
        Form::Short => read_short(rest),
        Form::Text => read_text(rest),
        Form::Other => None,
    }
}

// The record of what was read.
pub fn record_of(f: Fields) -> [u8; 16]
    ensures { result ≡ record_made f }
{
    let n = f.length;
    let i = f.info;
    [
        f.ty,
        f.flags,
        f.precision,
        f.scale,
        low(n),
        low(n / 256),
        low(n / 256 / 256),
        low(n / 256 / 256 / 256),
        low(i),
        low(i / 256),
        low(i / 256 / 256),
        low(i / 256 / 256 / 256),
        f.sort,
        0,
        0,
        0,
    ]
}
