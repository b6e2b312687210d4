// What stands behind GET and PUT.
#![tactic(auto)]

mod build;
mod format;
mod item;
mod option;
mod pair;
mod parts;
mod state;
mod stream;

pub use parts::{Direction, Transfer};
pub use stream::transfer;
