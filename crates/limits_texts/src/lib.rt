// The limits of texts, files and sheets, and the papers' numbers as one proved statement; there is no code here.
#![tactic(auto)]
