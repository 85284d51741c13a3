// How many bytes a value of one width takes in a row. No value is made.

#![tactic(auto)]

pub mod inner;
