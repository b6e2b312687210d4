// The parts of heads: conditions, parameters, options, ranges, what is allocated and what is freed.
#![tactic(auto)]

mod named_condition;
mod part;
mod procedure;
mod storage;
mod turn;

pub use named_condition::condition;
pub use part::word;
pub use procedure::{options, parameters};
pub use storage::{allocations, freeings};
pub use turn::{condition_in_parentheses, counting, value};
