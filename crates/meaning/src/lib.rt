// What expressions mean, and that no rule of the constructors changes it, proved in proofs/; there is no code here.
#![tactic(auto)]
