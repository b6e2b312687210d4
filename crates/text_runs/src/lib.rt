// Texts on the stack of texts: expressions of them at the points of a block, and calls while they wait, by the relation
// of activations.
#![tactic(auto)]

pub mod laws;
