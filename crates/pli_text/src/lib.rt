// Texts that wait while an expression is evaluated, and what is made of them.
#![tactic(auto)]

pub mod fault;
pub mod number;
mod order;
mod place;
pub mod stack;
#[cfg(test)]
mod tests;
