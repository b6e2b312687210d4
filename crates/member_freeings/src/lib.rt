//! FREE of a BASED structure, by way of a POINTER variable (`structure_freed`).
#![tactic(auto)]

pub mod laws;
