// TYPE_INFO, reading: a function for each continuation of the definition. Only `read_column` is for
// callers; the others ask that their place lies inside.

#![tactic(auto)]

ghost use Rattle.std.specs.Prelude.{◌≡◌, ℕ, ◌+◌, ◌≤◌, ◌^◌, length};
ghost use Rattle.format.specs.Answer.{then_read, read_at};
ghost use Rattle.format.specs.Number.{read_low};
ghost use Rattle.format.specs.Descriptor as D;
ghost use Rattle.format.specs.Descriptor.{read_column, read_type, read_fields};
ghost use Rattle.wire.specs.Told.{width_of};
ghost use Rattle.column_type.specs.Told.{type_told, column_read_told, NamesFrom};
ghost use Rattle.column_read.specs.Told.{pair_told, PairBelow, read_pair, read_behind};

use column_type::{Collation, Column, Schema, TypeId, plain};
use wire::{Cursor, Refusal, Width};

// A number of w bytes, and a byte: precision and scale, or a collation and its sort.
fn read_pair(s: &[u8], cursor: Cursor, w: Width) -> Result<(u64, u8, Cursor), Refusal>
    ensures { ((f : ℕ → ℕ → D.Column) → pair_told f result ≡ read_at (read_pair (width_of w) f) s.now cursor.at) × PairBelow (256 ^ width_of w) result }
{
    let (n, behind) = cursor.low(s, w)?;
    let (b, next) = behind.byte(s)?;
    Ok((n, b, next))
}

// What follows the length: precision and scale, a collation, or nothing.
fn read_behind(s: &[u8], cursor: Cursor, t: TypeId, n: u64) -> Result<(Column, Cursor), Refusal>
    requires { cursor.at ≤ length s.now }
    ensures { (column_read_told s.now result ≡ read_at (read_behind (type_told t) n) s.now cursor.at) × ((p : ℕ) → NamesFrom s.now p result) }
{
    if column_has::has_digits(t) {
        let (precision, scale, next) = read_pair(s, cursor, Width::One)?;
        return Ok((
            Column {
                ty: t,
                length: n,
                precision: precision as u8,
                scale,
                collation: None,
                schema: None,
            },
            next,
        ));
    }
    if column_has::has_collation(t) {
        let (info, sort, next) = read_pair(s, cursor, Width::Four)?;
        return Ok((
            Column {
                ty: t,
                length: n,
                precision: 0,
                scale: 0,
                collation: Some(Collation {
                    info: info as u32,
                    sort,
                }),
                schema: None,
            },
            next,
        ));
    }
    Ok((plain(t, n), cursor))
}

// The length, counted by w bytes, and what follows it.
fn read_sized(s: &[u8], cursor: Cursor, t: TypeId, w: Width) -> Result<(Column, Cursor), Refusal>
    ensures { (column_read_told s.now result ≡ read_at (then_read (read_low (width_of w)) (read_behind (type_told t))) s.now cursor.at) × ((p : ℕ) → NamesFrom s.now p result) }
{
    let (n, next) = cursor.low(s, w)?;
    read_behind(s, next, t, n)
}

// What follows the type byte.
fn read_fields(s: &[u8], cursor: Cursor, t: TypeId) -> Result<(Column, Cursor), Refusal>
    requires { cursor.at ≤ length s.now }
    ensures { (column_read_told s.now result ≡ read_at (read_fields (type_told t)) s.now cursor.at) × NamesFrom s.now (cursor.at + 2) result }
{
    match t {
        TypeId::Fixed(_) => Ok((plain(t, 0), cursor)),
        TypeId::Byte(_) => read_sized(s, cursor, t, Width::One),
        TypeId::UShort(_) => read_sized(s, cursor, t, Width::Two),
        TypeId::Long(_) => read_sized(s, cursor, t, Width::Four),
        TypeId::Daten => Ok((plain(t, column_has::DATEN_LENGTH), cursor)),
        TypeId::Xml => column_name::read_xml(s, cursor),
        TypeId::Udt | TypeId::SsVariant => Err(Refusal::NotCarried),
    }
}

// The type of the byte b, and what follows it.
fn read_type(s: &[u8], cursor: Cursor, b: u8) -> Result<(Column, Cursor), Refusal>
    requires { cursor.at ≤ length s.now }
    ensures { (column_read_told s.now result ≡ read_at (read_type b) s.now cursor.at) × NamesFrom s.now (cursor.at + 2) result }
{
    let t = TypeId::try_from(b)?;
    read_fields(s, cursor, t)
}

// The descriptor at the cursor. Names are spans of the whole input.
pub fn read_column(s: &[u8], cursor: Cursor) -> Result<(Column, Cursor), Refusal>
    ensures told { column_read_told s.now result ≡ read_at read_column s.now cursor.at }
    ensures names { NamesFrom s.now (cursor.at + 3) result }
{
    let (b, next) = cursor.byte(s)?;
    read_type(s, next, b)
}
