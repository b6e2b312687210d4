// Operators on numbers at the points of a block, by the relation of activations.
#![tactic(auto)]

pub mod laws;
