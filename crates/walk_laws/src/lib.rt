// What the definitions of the walks promise of every pool, proved in proofs/; there is no code here.
#![tactic(auto)]
