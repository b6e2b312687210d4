// Blocks whose own units change, by the relation of activations.
#![tactic(auto)]

pub mod laws;
