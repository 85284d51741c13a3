// One column's turn in reading a row. A row is read in two passes: the first judges it and finds every
// refusal but the room's, the second copies PLP content into the room and cannot fail.

#![tactic(auto)]

pub mod inner;

use cursor::Cursor;
use row_place::RowPlace;
use wire::Refusal;
