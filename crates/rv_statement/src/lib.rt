// The code of statements, with the blocks that stand among them.
#![tactic(auto)]

mod ahead;
mod condition;
mod counter;
mod enclosing;
mod goto;
pub mod held;
mod returning;
mod single;
pub mod statement;
pub mod temporaries;
mod tested;
mod turn;
