// How the run of a program begins, how it ends, and what a raise does: the code that stands before the procedures.
#![tactic(auto)]

pub mod blocks;
pub mod finish;
pub mod raise;
pub mod start;
mod statics;
#[cfg(test)]
mod tests;
pub mod variable;
