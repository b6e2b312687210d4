// Calls with several arguments, each by copy or by reference, of what a block around declares; it may have variables
// beside its parameters.
#![tactic(auto)]

pub mod laws;
