// How many bytes a value takes under its column's family.

#![tactic(auto)]

pub mod size;
