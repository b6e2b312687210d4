// DO groups, by the relation of activations.
#![tactic(auto)]

pub mod laws;
