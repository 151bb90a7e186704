// The coefficients of expansions as values: the book's recurrences in every ring, proved in proofs/; there is no code here.
#![tactic(auto)]
