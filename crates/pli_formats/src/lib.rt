// Format lists and the shapes of aggregates as they stand in memory.
#![tactic(auto)]

pub mod laws;
pub mod list;
mod node;
mod sizes;
#[cfg(test)]
mod tests;
