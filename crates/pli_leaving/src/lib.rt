// Blocks that are left, with the variables that end with them.
#![tactic(auto)]

pub mod leaving;
