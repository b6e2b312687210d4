// INITIAL values of AUTOMATIC variables, by the relation of activations.
#![tactic(auto)]

pub mod laws;
