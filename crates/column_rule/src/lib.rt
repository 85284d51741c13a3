// Rule 6: what a descriptor to be written or used for a value must keep.

#![tactic(auto)]

ghost use Rattle.std.specs.Prelude.{◌≡◌, List, ℕ, ◌^◌};
ghost use Rattle.format.specs.Descriptor.{has_digits, has_collation, length_fits, digits_fit, collation_fits, schema_fits, keeps_rule, name_fits, names_fit};
ghost use Rattle.column_type.specs.Told.{type_told, collation_told, name_told, schema_told, column_told};

use column_type::{Collation, Column, Name, Schema, TypeId};

// The length fits its field, or is what the type has without one.
fn length_fits(t: TypeId, n: u64) -> bool
    ensures { result ≡ length_fits (type_told t) n }
{
    match t {
        TypeId::Byte(_) => n < 256,
        TypeId::UShort(_) => n < 65536,
        TypeId::Long(_) => n < 4294967296,
        TypeId::Daten => n == column_has::DATEN_LENGTH,
        TypeId::Fixed(_) | TypeId::Xml | TypeId::Udt | TypeId::SsVariant => n == 0,
    }
}

// A byte fits its field, so that only a type without the two fields asks for something.
fn digits_fit(t: TypeId, precision: u8, scale: u8) -> bool
    ensures { result ≡ digits_fit (has_digits (type_told t)) precision scale }
{
    column_has::has_digits(t) || (precision == 0 && scale == 0)
}

// A collation stands exactly where the type has one. Its numbers fit their fields by their types.
fn collation_fits(t: TypeId, c: Option<Collation>) -> bool
    ensures { result ≡ collation_fits (has_collation (type_told t)) (collation_told c) }
{
    column_has::has_collation(t) == c.is_some()
}

// A schema is Xml's alone.
fn schema_fits(t: TypeId, n: Option<Schema>) -> bool
    ensures { (b : List ℕ) → result ≡ schema_fits (type_told t) (schema_told b n) }
{
    column_has::is_xml(t) || n.is_none()
}

// Whether the descriptor keeps the rule, but for what is asked only when it is written itself; it
// does not look at the names.
pub fn keeps_rule(c: Column) -> bool
    ensures { (b : List ℕ) → result ≡ keeps_rule (column_told b c) }
{
    length_fits(c.ty, c.length)
        && digits_fit(c.ty, c.precision, c.scale)
        && collation_fits(c.ty, c.collation)
        && schema_fits(c.ty, c.schema)
}

// Whether the span lies in the lent buffer and its count is below limit.
fn name_fits(n: Name, names: &[u8], limit: usize) -> bool
    ensures { (w : ℕ) → limit ≡ 256 ^ w → result ≡ name_fits w (name_told names.now n) }
{
    n.start <= names.len() && n.units <= (names.len() - n.start) / 2 && n.units < limit
}

// What is asked besides when the descriptor itself is written.
pub fn names_fit(n: Option<Schema>, names: &[u8]) -> bool
    ensures { result ≡ names_fit (schema_told names.now n) }
{
    match n {
        None => true,
        Some(three) => {
            name_fits(three.database, names, 256)
                && name_fits(three.owner, names, 256)
                && name_fits(three.collection, names, 65536)
        }
    }
}
