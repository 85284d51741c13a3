// How many bytes binary and string content takes.

#![tactic(auto)]

pub mod content;
