// One-way links (document 02, T-11): the min-label method and that its numbers are right. Definitions and theorems, no
// code.

#![tactic(auto)]
