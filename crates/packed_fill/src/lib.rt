// One column's turn in writing a row under a packed table, where the row fits.

#![tactic(auto)]

pub mod inner;
