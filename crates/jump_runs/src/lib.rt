// Jumps out of procedures and functions: their blocks, and calls that hand the jumps on.
#![tactic(auto)]

pub mod laws;
