// XML_INFO: the marker, and behind the marker 1 three names, kept as spans of the whole input.

#![tactic(auto)]

ghost use Rattle.std.specs.Prelude.{◌≡◌, ◌+◌, ◌*◌, ◌≤◌, length};
ghost use Rattle.format.specs.Answer.{then_read, read_at};
ghost use Rattle.format.specs.Number.{read_byte};
ghost use Rattle.format.specs.Descriptor.{read_schema, read_second, read_third, read_name, read_units};
ghost use Rattle.wire.specs.Told.{width_of};
ghost use Rattle.column_type.specs.Told.{column_read_told, NamesFrom, name_read_told, NameFrom, NameIn, name_bytes, ThirdFrom};

use column_type::{Collation, Column, Name, Schema, TypeId, plain};
use wire::{Cursor, Refusal, Width};

// The bytes of a name that has so many units.
fn read_units(s: &[u8], cursor: Cursor, n: u64) -> Result<(Name, Cursor), Refusal>
    requires { cursor.at ≤ length s.now }
    ensures { (name_read_told s.now result ≡ read_at (read_units n) s.now cursor.at) × NameFrom s.now cursor.at result }
{
    let start = cursor.at;
    let units = n as usize;
    if (s.len() - start) / 2 < units {
        return Err(Refusal::Missing);
    }
    Ok((
        Name { start, units },
        Cursor {
            at: start + 2 * units,
        },
    ))
}

// A name whose units are counted by w bytes.
fn read_name(s: &[u8], cursor: Cursor, w: Width) -> Result<(Name, Cursor), Refusal>
    ensures { (name_read_told s.now result ≡ read_at (read_name (width_of w)) s.now cursor.at) × NameFrom s.now (cursor.at + width_of w) result }
{
    let (n, next) = cursor.low(s, w)?;
    read_units(s, next, n)
}

// The third name, behind two that were read.
fn read_third(
    s: &[u8],
    cursor: Cursor,
    first: Name,
    second: Name,
) -> Result<(Column, Cursor), Refusal>
    requires { NameIn s.now first × NameIn s.now second }
    ensures { (column_read_told s.now result ≡ read_at (read_third (name_bytes s.now first) (name_bytes s.now second)) s.now cursor.at) × ThirdFrom s.now first second (cursor.at + 2) result }
{
    let (third, next) = read_name(s, cursor, Width::Two)?;
    Ok((
        Column {
            ty: TypeId::Xml,
            length: 0,
            precision: 0,
            scale: 0,
            collation: None,
            schema: Some(Schema {
                database: first,
                owner: second,
                collection: third,
            }),
        },
        next,
    ))
}

// The second name, behind one that was read, and the third.
fn read_second(s: &[u8], cursor: Cursor, first: Name) -> Result<(Column, Cursor), Refusal>
    requires { (cursor.at ≡ first.start + 2 * first.units) × NameIn s.now first }
    ensures { (column_read_told s.now result ≡ read_at (read_second (name_bytes s.now first)) s.now cursor.at) × NamesFrom s.now first.start result }
{
    let (second, next) = read_name(s, cursor, Width::One)?;
    read_third(s, next, first, second)
}

// The names behind the marker 1; no schema behind any other.
fn read_schema(s: &[u8], cursor: Cursor, marker: u8) -> Result<(Column, Cursor), Refusal>
    requires { cursor.at ≤ length s.now }
    ensures { (column_read_told s.now result ≡ read_at (read_schema marker) s.now cursor.at) × NamesFrom s.now (cursor.at + 1) result }
{
    if marker == 1 {
        let (first, next) = read_name(s, cursor, Width::One)?;
        read_second(s, next, first)
    } else {
        Ok((plain(TypeId::Xml, 0), cursor))
    }
}

// The marker, and what follows it.
pub fn read_xml(s: &[u8], cursor: Cursor) -> Result<(Column, Cursor), Refusal>
    ensures told { column_read_told s.now result ≡ read_at (then_read read_byte read_schema) s.now cursor.at }
    ensures names { NamesFrom s.now (cursor.at + 2) result }
{
    let (marker, next) = cursor.byte(s)?;
    read_schema(s, next, marker)
}
