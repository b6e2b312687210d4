// Calls with an argument that is copied, of what a block around declares; it may have variables beside its parameter.
#![tactic(auto)]

pub mod laws;
