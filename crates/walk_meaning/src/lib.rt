// What substitution and derivation do to the values of expressions, proved in proofs/; there is no code here.
#![tactic(auto)]
