// Formulas over the nodes of a pool as values, and what follows for the coefficients of an answer, proved in proofs/; there is no code here.
#![tactic(auto)]
