// ONCODE in expressions at the points of a block.
#![tactic(auto)]

pub mod laws;
