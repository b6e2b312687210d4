// What the declarations of a program may not say.
#![tactic(auto)]

pub mod attribute;
mod block;
pub mod constant;
mod extent;
mod head;
pub mod held;
mod initial;
pub mod least;
mod program;
mod refer;
mod refusal;
mod statics;
mod storage;
mod structure;
mod twice;
mod variable;

pub use refusal::declare;
