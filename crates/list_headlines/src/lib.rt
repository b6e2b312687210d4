//! The headline of programs that pass several arguments (`list_kept`).
#![tactic(auto)]

pub mod laws;
