// A column's descriptor, read as a record of 16 bytes, and beside it six numbers: start and units of
// XML_INFO's three names.

#![tactic(auto)]

ghost use Rattle.std.specs.Prelude.{◌≡◌, ◌≤◌};
ghost use Rattle.board_answer.specs.Told.{counted, place, after};
ghost use Rattle.board_column_read.specs.Plain.{record_at, spans_at};
ghost use Rattle.board_column_read.specs.Made as M;

use board_answer::Counted;
use column_type::{Collation, Column, Schema};
use wire::Cursor;

// Bit 1 of the flags: names are present.
fn schema_flag(schema: Option<Schema>) -> u8
    ensures { (result ≡ M.schema_flag schema) × (result ≤ 2) }
{
    if schema.is_some() { 2 } else { 0 }
}

// The flags: bit 0, a collation is present; bit 1.
fn flags(collation: Option<Collation>, schema: Option<Schema>) -> u8
    ensures { result ≡ M.flags collation schema }
{
    u8::from(collation.is_some()) + schema_flag(schema)
}

// The collation's number, 0 where there is none.
fn info(collation: Option<Collation>) -> u64
    ensures { result ≡ M.info collation }
{
    match collation {
        None => 0,
        Some(c) => u64::from(c.info),
    }
}

// Its sort byte, 0 where there is none.
fn sort(collation: Option<Collation>) -> u8
    ensures { result ≡ M.sort collation }
{
    match collation {
        None => 0,
        Some(c) => c.sort,
    }
}

// The index of the names, 0 where there are none.
fn index_of(schema: Option<Schema>, index: u16) -> u64
    ensures { result ≡ M.index_of schema index }
{
    if schema.is_some() {
        u64::from(index)
    } else {
        0
    }
}

// The lowest byte.
fn low(n: u64) -> u8
    ensures { result ≡ M.low n }
{
    (n % 256) as u8
}

// A column's record.
fn record_of(c: Column, index: u16) -> [u8; 16]
    ensures { result ≡ M.record_made c index }
{
    let n = c.length;
    let i = info(c.collation);
    let x = index_of(c.schema, index);
    [
        u8::from(c.ty),
        flags(c.collation, c.schema),
        c.precision,
        c.scale,
        low(n),
        low(n / 256),
        low(n / 256 / 256),
        low(n / 256 / 256 / 256),
        low(i),
        low(i / 256),
        low(i / 256 / 256),
        low(i / 256 / 256 / 256),
        sort(c.collation),
        0,
        low(x),
        low(x / 256),
    ]
}

// Start and units of the three names.
fn names_of(schema: Option<Schema>) -> [u64; 6]
    ensures { result ≡ M.names_made schema }
{
    match schema {
        None => [0, 0, 0, 0, 0, 0],
        Some(three) => [
            three.database.start as u64,
            three.database.units as u64,
            three.owner.start as u64,
            three.owner.units as u64,
            three.collection.start as u64,
            three.collection.units as u64,
        ],
    }
}

// Any descriptor, by way of its column.
fn read_any(
    bytes: &[u8],
    at: usize,
    index: u16,
    column: &mut [u8; 16],
    names: &mut [u64; 6],
) -> Counted
    ensures answer { result ≡ counted (place (record_at index bytes.now at)) }
    ensures column { column.new ≡ after (record_at index bytes.now at) column.old }
    ensures names { names.new ≡ after (spans_at bytes.now at) names.old }
{
    match column_read::read_column(bytes, Cursor { at }) {
        Ok((c, next)) => {
            *column = record_of(c, index);
            *names = names_of(c.schema);
            board_answer::at(next.at)
        }
        Err(e) => board_answer::refused(e),
    }
}

// The descriptor at a place of the bytes: its record, and where its names stand. The common forms first.
pub fn column_read(
    bytes: &[u8],
    at: usize,
    index: u16,
    column: &mut [u8; 16],
    names: &mut [u64; 6],
) -> Counted
    ensures answer { result ≡ counted (place (record_at index bytes.now at)) }
    ensures column { column.new ≡ after (record_at index bytes.now at) column.old }
    ensures names { names.new ≡ after (spans_at bytes.now at) names.old }
{
    if bytes.len() < at {
        return read_any(bytes, at, index, column, names);
    }
    if let Some(f) = record_read::read_fields(&bytes[at..]) {
        *column = record_read::record_of(f);
        *names = [0, 0, 0, 0, 0, 0];
        return board_answer::at(at + f.size);
    }
    read_any(bytes, at, index, column, names)
}
