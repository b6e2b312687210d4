// The operators, and the built-in functions.
#![tactic(auto)]

pub mod argument;
pub mod array;
pub mod builtin;
pub mod calculation;
pub mod comparison;
pub mod locator;
pub mod node;
pub mod numbers;
pub mod operator;
