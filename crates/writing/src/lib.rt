// The writing order of the node file is document 01's, and no other, in specs/ and proofs/; there is no code here.
#![tactic(auto)]
