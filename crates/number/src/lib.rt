// Numbers over the width, low byte first and high byte first, and copying: what every layer reads and
// writes bytes with.

#![tactic(auto)]

pub mod inner;
