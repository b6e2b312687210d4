// What every state and every run of the storage machine has, at every number of acts.
#![tactic(auto)]

pub mod laws;
