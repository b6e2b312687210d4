// Programs of numbers as a class, by the relation of activations.
#![tactic(auto)]

pub mod laws;
