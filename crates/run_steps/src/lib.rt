// Runs of code: what instructions and services do in one, and how many of them come before the next act.
#![tactic(auto)]

pub mod laws;
