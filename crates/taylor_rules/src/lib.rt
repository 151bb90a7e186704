// What an accepted operation on expansions leaves may be given to the next, proved in proofs/; there is no code here.
#![tactic(auto)]
