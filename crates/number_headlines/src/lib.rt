// The headline of a class of programs, by the relation of activations.
#![tactic(auto)]

pub mod laws;
