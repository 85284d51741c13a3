// One column's turn in writing a row. A row is written in two passes: the first sums sizes and finds
// every refusal but the room's, the second fills the room and cannot fail.

#![tactic(auto)]

pub mod inner;
