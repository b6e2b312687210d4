// Kinds, signatures and the typed tree of a program, with the rules of typing and their laws.
#![tactic(auto)]

pub mod laws;
pub mod statement;
pub mod typed;
