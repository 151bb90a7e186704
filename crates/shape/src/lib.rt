// The definitions and the theorems of the node file, in specs/ and proofs/; there is no code here.
#![tactic(auto)]
