// What a source is: tokens, the tree that they spell, and what it declares, with the refusals of sources and the laws of these.
#![tactic(auto)]

pub mod condition;
pub mod declaration;
pub mod expr;
pub mod fault;
pub mod laws;
pub mod scope;
pub mod stmt;
pub mod token;
