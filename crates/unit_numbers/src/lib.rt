// The headline of a class of programs with on-units, by the relation of activations.
#![tactic(auto)]

pub mod laws;
