// Griewank and Walther's recurrences at the nodes of the pool, proved in proofs/; there is no code here.
#![tactic(auto)]
