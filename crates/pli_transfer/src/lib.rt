// What operands are used for: arguments, assignments, the variable of DO, items of GET and PUT.
#![tactic(auto)]

pub mod argument;
pub mod assignment;
pub mod callee;
pub mod computational;
pub mod item;
mod matching;
mod reading;
pub mod scalar;
