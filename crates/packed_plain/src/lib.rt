// Columns whose values have one width, told by the numbers of a packed record alone. Most columns of
// most rows are such, and their values are found without making the column.

#![tactic(auto)]

pub mod inner;

use value_kind::kinds::Kind;

// The kind's bytes alone; or null, or the kind behind its length byte. Bits are neither: a bit's byte
// is not always the one that is written again.
#[derive(Clone, Copy)]
pub enum Plain {
    Bare(Kind),
    Counted(Kind),
}
