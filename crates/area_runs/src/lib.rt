// Areas, pointers, and variables by way of them, by the relation of activations.
#![tactic(auto)]

pub mod laws;
