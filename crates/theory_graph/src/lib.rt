// Walks, cycles, trees, auxiliary classes, blocks; no code.

#![tactic(auto)]
