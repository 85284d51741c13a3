// No code: proofs/Demand3.antt says what the calls on rows mean together.

#![tactic(auto)]
