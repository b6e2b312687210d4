// Elements of arrays, by the relation of activations.
#![tactic(auto)]

pub mod laws;
