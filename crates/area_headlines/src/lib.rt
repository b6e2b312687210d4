//! The headline of programs that assign and empty whole areas (`clear_kept`), free in them (`release_kept`), and
//! compare pointers into them (`follow_kept`).
#![tactic(auto)]

pub mod laws;
