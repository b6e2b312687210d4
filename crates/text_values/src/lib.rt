// Texts as values, by the relation of activations: constants, variables, comparisons.
#![tactic(auto)]

pub mod laws;
