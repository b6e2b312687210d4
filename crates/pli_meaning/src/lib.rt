// What a program means, with the laws of that, and what of an image takes part in its run.
#![tactic(auto)]

pub mod laws;
pub mod outcome;
