// Parameters by reference: the list of arguments has the name of a generation that is there already, by the relation of
// activations.
#![tactic(auto)]

pub mod laws;
