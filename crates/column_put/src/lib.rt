// The writing pass of a descriptor.

#![tactic(auto)]

pub mod inner;
