// One column's turn in judging a row: what the row needs so far, and one value more.

#![tactic(auto)]

pub mod inner;

use cursor::Cursor;
use wire::Refusal;

// Where a row ends, how many content bytes reading copies out, and how many bytes its normal form
// has.
#[derive(Clone, Copy)]
pub struct RowNeeds {
    pub next: Cursor,
    pub joined: usize,
    pub normal: usize,
}
