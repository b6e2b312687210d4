// The code of extents that are evaluated, of what REFER members are set to, and of INITIAL values.
#![tactic(auto)]

pub mod amount;
pub mod check;
pub mod evaluation;
pub mod fill;
pub mod initial;
#[cfg(test)]
mod tests;
pub mod words;
