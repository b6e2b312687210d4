// DO with a variable that starts once, by the relation of activations.
#![tactic(auto)]

pub mod laws;
