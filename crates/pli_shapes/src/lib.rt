// Shapes of aggregates, as items of GET and PUT have them, read from memory.
#![tactic(auto)]

pub mod laws;
pub mod part;
pub mod shape;
mod sizes;
#[cfg(test)]
mod tests;
