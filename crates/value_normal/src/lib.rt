// One value's turn in copying a row to its normal form.

#![tactic(auto)]

pub mod inner;

// The input's bytes from `from` up to `at` are still to be copied, to the room from `put` on.
#[derive(Clone, Copy)]
pub struct Run {
    pub from: usize,
    pub at: usize,
    pub put: usize,
}
