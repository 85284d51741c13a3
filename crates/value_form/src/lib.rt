// How a value of an accepted row stands to its normal form. No value is made.

#![tactic(auto)]

pub mod inner;

// So many bytes that are the normal form already; a bit whose byte, at a place, is above 1 and is
// written 1; or PLP content, text or not. Places count from the value's first byte.
#[derive(Clone, Copy)]
pub enum Form {
    Same(usize),
    Bit(usize),
    Plp(bool),
}
