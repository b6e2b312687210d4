// ON in procedures and functions with a parameter.
#![tactic(auto)]

pub mod laws;
