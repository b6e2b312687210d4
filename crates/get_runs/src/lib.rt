// Statements that read, at the points of a block.
#![tactic(auto)]

pub mod laws;
