// Kinds of values and their conversions; signatures of generations, and how many bytes they take.
#![tactic(auto)]

pub mod kind;
pub mod signature;
pub mod size;
#[cfg(test)]
mod tests;
