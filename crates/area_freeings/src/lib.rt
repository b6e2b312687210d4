//! FREE of what a pointer variable points to, in an area or in the heap (`based_freed`), with service 11.
#![tactic(auto)]

pub mod laws;
