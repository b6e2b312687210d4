// The code of GET and PUT with EDIT.
#![tactic(auto)]

mod exit;
pub mod get;
mod pair;
pub mod put;
pub mod text;
