// The blocks that are entered, with their on-units.
#![tactic(auto)]

pub mod activations;
pub mod block;
#[cfg(test)]
mod tests;
