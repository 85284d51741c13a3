// The three numbers of a value of one width, straight from its bytes. No value is made.

#![tactic(auto)]

pub mod inner;
