// The writing pass of a descriptor, for the crates of this repository. It cannot fail: a caller lends
// as many bytes as the size pass found.
ghost use Rattle.std.specs.Prelude.{◌≡◌, true, ◌++◌, ◌+◌, ◌*◌, ◌≤◌, length};
ghost use Rattle.std.proofs.lemmas.List.Edits.{sets};
ghost use Rattle.format.specs.Descriptor.{has_digits, digits_bytes, collation_bytes, name_bytes, schema_bytes, column_bytes, names_fit, xml};
ghost use Rattle.column_type.specs.Told.{type_told, collation_told, name_told, schema_told, column_told, NameIn};

use column_type::{Collation, Column, Name, Schema, TypeId};
use wire::inner;

// Precision and scale, where the type has them; the place behind.
fn put_digits(out: &mut [u8], at: usize, t: TypeId, precision: u8, scale: u8) -> usize
    requires { at + length (digits_bytes (has_digits (type_told t)) precision scale) ≤ length out.old }
    ensures room { out.new ≡ sets out.old at (digits_bytes (has_digits (type_told t)) precision scale) }
    ensures next { result ≡ at + length (digits_bytes (has_digits (type_told t)) precision scale) }
{
    if column_has::has_digits(t) {
        inner::put_byte(out, at, precision);
        inner::put_byte(out, at + 1, scale);
        return at + 2;
    }
    at
}

// The collation, if there is one; the place behind.
fn put_collation(out: &mut [u8], at: usize, c: Option<Collation>) -> usize
    requires { at + length (collation_bytes (collation_told c)) ≤ length out.old }
    ensures room { out.new ≡ sets out.old at (collation_bytes (collation_told c)) }
    ensures next { result ≡ at + length (collation_bytes (collation_told c)) }
{
    if let Some(Collation { info, sort }) = c {
        inner::put_low(out, at, info as u64, 4);
        inner::put_byte(out, at + 4, sort);
        return at + 5;
    }
    at
}

// A name behind its count of w bytes; the place behind.
fn put_name(out: &mut [u8], at: usize, n: Name, names: &[u8], w: usize) -> usize
    requires { NameIn names.now n × (at + (w + 2 * n.units) ≤ length out.old) }
    ensures room { out.new ≡ sets out.old at (name_bytes w (name_told names.now n)) }
    ensures next { result ≡ at + (w + 2 * n.units) }
{
    let end = n.start + 2 * n.units;
    inner::put_low(out, at, n.units as u64, w);
    inner::paste(names, n.start, end, out, at + w);
    at + (w + 2 * n.units)
}

// The three names, one behind another.
fn put_names(out: &mut [u8], at: usize, three: Schema, names: &[u8])
    requires { NameIn names.now three.database × NameIn names.now three.owner × NameIn names.now three.collection × (at + (4 + 2 * three.database.units + 2 * three.owner.units + 2 * three.collection.units) ≤ length out.old) }
    ensures { out.new ≡ sets out.old at (name_bytes 1 (name_told names.now three.database) ++ (name_bytes 1 (name_told names.now three.owner) ++ name_bytes 2 (name_told names.now three.collection))) }
{
    let second = put_name(out, at, three.database, names, 1);
    let third = put_name(out, second, three.owner, names, 1);
    put_name(out, third, three.collection, names, 2);
}

// The marker, and the names where there are any.
fn put_marked(out: &mut [u8], at: usize, n: Option<Schema>, names: &[u8])
    requires { (names_fit (schema_told names.now n) ≡ true) × (at + length (schema_bytes xml (schema_told names.now n)) ≤ length out.old) }
    ensures { out.new ≡ sets out.old at (schema_bytes xml (schema_told names.now n)) }
{
    if let Some(three) = n {
        inner::put_byte(out, at, 1);
        put_names(out, at + 1, three, names);
        return;
    }
    inner::put_byte(out, at, 0);
}

// The schema, where the type has one.
fn put_schema(out: &mut [u8], at: usize, t: TypeId, n: Option<Schema>, names: &[u8])
    requires { (names_fit (schema_told names.now n) ≡ true) × (at + length (schema_bytes (type_told t) (schema_told names.now n)) ≤ length out.old) }
    ensures { out.new ≡ sets out.old at (schema_bytes (type_told t) (schema_told names.now n)) }
{
    if column_has::is_xml(t) {
        put_marked(out, at, n, names);
    }
}

// The whole descriptor, where there is room for it.
pub fn put_column(out: &mut [u8], c: Column, names: &[u8])
    requires { (names_fit (schema_told names.now c.schema) ≡ true) × (length (column_bytes (column_told names.now c)) ≤ length out.old) }
    ensures { out.new ≡ sets out.old 0 (column_bytes (column_told names.now c)) }
{
    let w = column_has::length_width(c.ty);
    inner::put_byte(out, 0, u8::from(c.ty));
    inner::put_low(out, 1, c.length, w);
    let second = put_digits(out, 1 + w, c.ty, c.precision, c.scale);
    let third = put_collation(out, second, c.collation);
    put_schema(out, third, c.ty, c.schema, names);
}
