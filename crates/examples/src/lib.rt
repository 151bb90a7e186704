// The starred examples of document 01, as one proved statement; there is no code here.
#![tactic(auto)]
