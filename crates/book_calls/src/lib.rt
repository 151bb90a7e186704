// Griewank and Walther's recurrences in every accepted call, proved in proofs/; there is no code here.
#![tactic(auto)]
