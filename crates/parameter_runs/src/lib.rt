// Parameters of a block, and of the blocks around it, in what is called from it.
#![tactic(auto)]

pub mod laws;
