// That each refusal is given in its situation and in no other, stated in specs/ and proved in proofs/ of the definitions; there is no code here.
#![tactic(auto)]
