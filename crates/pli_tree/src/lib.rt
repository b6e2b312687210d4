// The typed tree of a program, or the least of the rules of typing that it breaks.
#![tactic(auto)]

mod alone;
mod block;
mod call;
mod context;
mod inner;
mod label;
mod listed;
mod program;
mod returned;
mod single;
mod statement;
mod turn;
mod walked;

pub use program::resolve;
