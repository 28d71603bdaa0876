// Demand 3, about a whole list of calls (specs/Claim.antt). No code.

#![tactic(auto)]
