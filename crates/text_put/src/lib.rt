// The two forms of a text, and the pass that writes one as the other into room that it fits.

#![tactic(auto)]

pub mod inner;
