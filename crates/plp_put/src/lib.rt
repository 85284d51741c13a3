// PLP content that was judged, put in the writer's form.

#![tactic(auto)]

pub mod inner;
