//! POINTER variables: what they hold (`pointers_told`), and assignments to them (`null_assigned`, `pointer_assigned`).
#![tactic(auto)]

pub mod laws;
