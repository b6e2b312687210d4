// Generations of CONTROLLED variables begin: service 16.
#![tactic(auto)]

pub mod pushing;
mod stacking;
#[cfg(test)]
mod tests;
