//! The headline of a program that links three structures in an area, walks the list and frees it (`walked_kept`).
#![tactic(auto)]

pub mod laws;
