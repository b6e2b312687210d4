// The entries of the services' stack: texts that wait in expressions, and aggregates that were taken.
#![tactic(auto)]

pub mod entries;
pub mod fault;
mod kept;
mod operations;
pub mod taken;
#[cfg(test)]
mod tests;
pub mod texts;
