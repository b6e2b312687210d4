// DO with a variable that counts, by the relation of activations.
#![tactic(auto)]

pub mod laws;
