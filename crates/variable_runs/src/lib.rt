// Several variables of one block, by the relation of activations.
#![tactic(auto)]

pub mod laws;
