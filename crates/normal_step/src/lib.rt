// One column's turn in copying a row to its normal form.

#![tactic(auto)]

pub mod inner;
