// One character of UTF-8 and of UTF-16LE: decoding, and the size.

#![tactic(auto)]

mod inner;
pub mod utf16;
pub mod utf8;
