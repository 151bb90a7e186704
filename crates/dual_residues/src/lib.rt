// A model with an exponential that is not constant and exact division, so that the theorems on exp, log and quotients speak of something, in specs/ and proofs/; there is no code here.
#![tactic(auto)]
