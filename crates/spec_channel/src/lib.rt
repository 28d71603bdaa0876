// Several sites over one channel (T-12): eight seats, a turn, and what is promised of any list of loads and ticks.
// No code.

#![tactic(auto)]
