// What stands around PLP content in the writer's form.

#![tactic(auto)]

pub mod inner;
