// Arguments: lists of them in the caller's frame, and the copies that a procedure makes, by the relation of
// activations.
#![tactic(auto)]

pub mod laws;
