// Statements that write, at the points of a block.
#![tactic(auto)]

pub mod laws;
