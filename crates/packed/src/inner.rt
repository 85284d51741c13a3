// The column at a place of a table, for the crates of this repository.
ghost use Rattle.std.specs.Prelude.{◌≡◌, ◌*◌, ◌<◌, length, drop};
ghost use Rattle.packed.specs.Made.{column_made, no_name};

use column_type::{Column, Name, Schema};

// The column of the record at i, from the left, its names empty.
#[inline(always)]
pub fn column_at(table: &[u8], i: usize) -> Column
    requires { 16 * i < length table.now }
    ensures { result ≡ column_made (drop (16 * i) table.now) no_name no_name no_name }
{
    let none = Name { start: 0, units: 0 };
    let names = Schema {
        database: none,
        owner: none,
        collection: none,
    };
    crate::column_of(&table[16 * i..], names)
}
