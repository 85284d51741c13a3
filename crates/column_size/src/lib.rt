// How many bytes a descriptor takes, or why it is not written: every refusal but 4.

#![tactic(auto)]

ghost use Rattle.std.specs.Prelude.{◌≡◌, true, ℕ, ◌+◌, ◌*◌, ◌≤◌, length};
ghost use Rattle.format.specs.Answer.{wrote};
ghost use Rattle.format.specs.Descriptor.{has_digits, digits_bytes, collation_bytes, schema_bytes, column_bytes, names_fit, write_column, xml};
ghost use Rattle.wire.specs.Told.{answer_told};
ghost use Rattle.column_type.specs.Told.{type_told, collation_told, schema_told, column_told};

use column_type::{Collation, Column, Schema, TypeId};
use wire::Refusal;

// How many bytes precision and scale take.
fn digits_size(t: TypeId) -> usize
    ensures { ((p s : ℕ) → result ≡ length (digits_bytes (has_digits (type_told t)) p s)) × (result ≤ 2) }
{
    if column_has::has_digits(t) { 2 } else { 0 }
}

// How many bytes the collation takes.
fn collation_size(c: Option<Collation>) -> usize
    ensures { (result ≡ length (collation_bytes (collation_told c))) × (result ≤ 5) }
{
    if c.is_some() { 5 } else { 0 }
}

// A marker, and the three names where there are any. The buffer is there for the contract alone. The
// bound is any that lets the sizes be added: names that fit take 132,095 bytes at most, 5 and twice
// 255, 255 and 65,535 units.
fn marked_size(n: Option<Schema>, names: &[u8]) -> usize
    requires { names_fit (schema_told names.now n) ≡ true }
    ensures { (result ≡ length (schema_bytes xml (schema_told names.now n))) × (result ≤ 200000) }
{
    match n {
        None => 1,
        Some(three) => {
            5 + 2 * three.database.units + 2 * three.owner.units + 2 * three.collection.units
        }
    }
}

// How many bytes the schema takes: only Xml has one.
fn schema_size(t: TypeId, n: Option<Schema>, names: &[u8]) -> usize
    requires { names_fit (schema_told names.now n) ≡ true }
    ensures { (result ≡ length (schema_bytes (type_told t) (schema_told names.now n))) × (result ≤ 200000) }
{
    if column_has::is_xml(t) {
        marked_size(n, names)
    } else {
        0
    }
}

// How many bytes a descriptor takes whose names fit.
fn size_of(c: Column, names: &[u8]) -> usize
    requires { names_fit (schema_told names.now c.schema) ≡ true }
    ensures { result ≡ length (column_bytes (column_told names.now c)) }
{
    1 + column_has::length_width(c.ty)
        + digits_size(c.ty)
        + collation_size(c.collation)
        + schema_size(c.ty, c.schema, names)
}

// How many bytes the descriptor takes, or why it is not written.
pub fn column_size(c: Column, names: &[u8]) -> Result<usize, Refusal>
    ensures { answer_told result ≡ wrote (write_column (column_told names.now c)) }
{
    if !column_rule::keeps_rule(c) {
        return Err(Refusal::Rule);
    }
    if !column_rule::names_fit(c.schema, names) {
        return Err(Refusal::Rule);
    }
    if !column_has::is_described(c.ty) {
        return Err(Refusal::NotCarried);
    }
    Ok(size_of(c, names))
}
