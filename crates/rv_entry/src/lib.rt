// The code by which blocks are entered and left.
#![tactic(auto)]

mod argument;
pub mod block;
mod copy;
pub mod frame;
mod own;
pub mod parameter;
#[cfg(test)]
mod tests;
mod text;
pub mod variable;
