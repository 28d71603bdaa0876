// The ten stages as rules over tables; no code.

#![tactic(auto)]
