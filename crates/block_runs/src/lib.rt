// Blocks in a run of code: how a call comes into one, and its end back to the block below.
#![tactic(auto)]

pub mod laws;
