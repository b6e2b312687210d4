// The headline of a worked row of texts, by the relation of activations.
#![tactic(auto)]

pub mod laws;
