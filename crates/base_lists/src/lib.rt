// Laws on lists and tables; no code.

#![tactic(auto)]
