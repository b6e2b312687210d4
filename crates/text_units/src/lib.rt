// Units that are raised while texts wait, by the relation of activations.
#![tactic(auto)]

pub mod laws;
