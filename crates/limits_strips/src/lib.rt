// The numbers of C-20 in document 02's digits, as one proved statement of what the calls answer: definitions and proofs alone.
#![tactic(auto)]
