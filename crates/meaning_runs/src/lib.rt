// The meaning of an accepted program is there at every number of acts.
#![tactic(auto)]

pub mod laws;
