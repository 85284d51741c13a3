// replay_say

#![tactic(auto)]

pub mod fields;
pub mod say;
mod shown;
