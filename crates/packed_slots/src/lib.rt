// The values of a row that was judged, three numbers each, under a packed table of columns.

#![tactic(auto)]

pub mod inner;
