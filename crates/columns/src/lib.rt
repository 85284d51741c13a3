// No code: specs/ says what lent lists of columns and of values tell, proofs/Taken.antt how such a list
// is taken apart from the left.

#![tactic(auto)]
