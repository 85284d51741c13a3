// guid, number, text_in, text_out, and the ops that are the project's own.

#![tactic(auto)]

pub mod numbers;
pub mod own;
pub mod texts;
