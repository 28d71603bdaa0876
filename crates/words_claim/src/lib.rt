// Demand 3 of calls on words, about a whole list of them (specs/WordsClaim.antt). No code.

#![tactic(auto)]
