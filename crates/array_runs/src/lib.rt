// Arrays of numbers and bits with one dimension or more, by the relation of activations.
#![tactic(auto)]

pub mod laws;
