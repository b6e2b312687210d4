// Which declaration a reference means.
#![tactic(auto)]

pub mod above;
mod among;
mod blocks;
pub mod names;
mod qualifiers;
pub mod scope;
mod scopes;
mod walk;

pub use scopes::{Scopes, read_scopes};
