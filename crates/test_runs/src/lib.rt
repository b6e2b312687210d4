// Tests, and statements that are chosen or repeated by them, by the relation of activations.
#![tactic(auto)]

pub mod laws;
