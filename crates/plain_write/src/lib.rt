// Values of one width, written by their numbers: how many bytes, and the bytes. No column and no value
// is made.

#![tactic(auto)]

pub mod inner;
