// Scalars of fewer bits than 31 at the points of a block, by the relation of activations.
#![tactic(auto)]

pub mod laws;
