// Activations in a run: what machine and services have of each, and that blocks are entered and left as in the storage
// machine.
#![tactic(auto)]

pub mod laws;
