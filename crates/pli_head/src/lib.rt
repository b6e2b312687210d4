// Heads: what the grammar reads at a place up to and with THEN, ELSE, the condition of ON, or a semicolon.
#![tactic(auto)]

mod beginning;
pub mod continuation;
mod group;
mod heads;
pub mod reading;
mod statement;

pub use heads::Head;
