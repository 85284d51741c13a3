// Columns as records of 16 bytes, one behind another in a table: how many there are, and the column
// of each. A record that no column packs to stands for a column that breaks the rule.

#![tactic(auto)]

pub mod inner;

ghost use Rattle.std.specs.Prelude.{◌≡◌, true, ◌≤◌, eqb, length};
ghost use Rattle.lists.specs.Pick.{pick};
ghost use Rattle.packed.specs.Each.{parts_of};
ghost use Rattle.packed.specs.Packed.{keeps_places};
ghost use Rattle.packed.specs.Made.{collation_made, schema_made, fields_made, broken_made, column_made};

use column_type::{Collation, Column, FixedLen, Schema, TypeId};

// How many records a table has; a shorter last one is one.
pub fn records(table: &[u8]) -> usize
    ensures { result ≡ parts_of 16 (length table.now) }
{
    table.len().div_ceil(16)
}

// A column that breaks the rule: a number without a field.
fn broken() -> Column
    ensures { result ≡ broken_made }
{
    column_type::plain(TypeId::Fixed(FixedLen::Int1), 1)
}

// Places that nothing uses are zero: n is their bytes' number.
fn unused_zero(used: bool, n: u64) -> bool
    ensures { result ≡ pick used true (eqb n 0) }
{
    used || n == 0
}

// No other flag, and unused places zero.
fn keeps_places(r: &[u8]) -> bool
    requires { 16 ≤ length r.now }
    ensures { result ≡ keeps_places r.now }
{
    let flags = r[1];
    if 3 < flags {
        return false;
    }
    if r[13] != 0 {
        return false;
    }
    let collation = wire::inner::low_at(r, 8, 5);
    let index = wire::inner::low_at(r, 14, 2);
    unused_zero(flags % 2 == 1, collation) && unused_zero(flags / 2 == 1, index)
}

// The collation, where the flag says that there is one.
fn collation_of(r: &[u8]) -> Option<Collation>
    requires { 16 ≤ length r.now }
    ensures { result ≡ collation_made r.now }
{
    if r[1] % 2 == 1 {
        Some(Collation {
            info: wire::inner::low_at(r, 8, 4) as u32,
            sort: r[12],
        })
    } else {
        None
    }
}

// The names, where the flag says that there are some.
fn schema_of(flags: u8, names: Schema) -> Option<Schema>
    ensures { result ≡ schema_made flags names.database names.owner names.collection }
{
    if flags / 2 == 1 { Some(names) } else { None }
}

// What stands at the places, under a type.
fn fields_of(r: &[u8], ty: TypeId, names: Schema) -> Column
    requires { 16 ≤ length r.now }
    ensures { result ≡ fields_made ty r.now names.database names.owner names.collection }
{
    Column {
        ty,
        length: wire::inner::low_at(r, 4, 4),
        precision: r[2],
        scale: r[3],
        collation: collation_of(r),
        schema: schema_of(r[1], names),
    }
}

// The column of the record that the bytes begin with. Where it has a schema, its names are those given.
// As a call it would cost a quarter of reading a short value.
#[inline(always)]
pub fn column_of(r: &[u8], names: Schema) -> Column
    ensures { result ≡ column_made r.now names.database names.owner names.collection }
{
    if r.len() < 16 {
        return broken();
    }
    if !keeps_places(r) {
        return broken();
    }
    match TypeId::try_from(r[0]) {
        Ok(ty) => fields_of(r, ty, names),
        Err(_) => broken(),
    }
}
