// The one place that makes a value of a fixed width out of bytes.

#![tactic(auto)]

pub mod inner;
