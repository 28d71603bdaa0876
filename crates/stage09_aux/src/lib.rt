// Stage 9's edges: the joins of the auxiliary graph as pairs of units, and the head of each unit.
#![tactic(auto)]

pub mod heads;
pub mod pairs;
