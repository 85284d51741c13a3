// Numbers as their bits: two's complement, and floats.

#![tactic(auto)]

pub mod float;
pub mod signed;
