// Storage in memory: which bytes hold what the storage machine has, and that services and code keep it so.
#![tactic(auto)]

pub mod laws;
