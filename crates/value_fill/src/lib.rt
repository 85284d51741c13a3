// filling

#![tactic(auto)]

pub mod inner;
