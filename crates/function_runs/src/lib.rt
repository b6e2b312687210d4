// Functions: their calls in expressions, and the values that they return, by the relation of activations.
#![tactic(auto)]

pub mod laws;
