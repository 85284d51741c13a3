// No code: specs/ has the definitions of document 01, proofs/ the theorems about them.

#![tactic(auto)]
