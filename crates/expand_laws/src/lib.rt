// Laws of the expansion of an expression: how its walk goes, and what it keeps. There is no code here.
#![tactic(auto)]
