// Rings that are shown (T-04); no code.

#![tactic(auto)]
