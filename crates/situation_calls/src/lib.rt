// The table of refusals, call by call, and that every call answers by it; in specs/ and proofs/, there is no code here.
#![tactic(auto)]
