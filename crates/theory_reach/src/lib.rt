// What holds of every state that a load reaches; no code.

#![tactic(auto)]
