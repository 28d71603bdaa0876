// Document 01's machine: the state, what each round and call leaves of it, and the proved cases. No code.

#![tactic(auto)]
