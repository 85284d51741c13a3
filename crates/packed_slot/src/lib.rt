// A value that was found as three numbers: its kind's, and two more.

#![tactic(auto)]

pub mod inner;
