// The limits and the refusal numbers of document 01, by what the calls answer; there is no code here.
#![tactic(auto)]
