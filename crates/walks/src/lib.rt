// The definitions of substitution, derivation, evaluation and printing, in specs/; there is no code here.
#![tactic(auto)]
