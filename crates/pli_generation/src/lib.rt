// ALLOCATE and FREE, and the variables of level 1 with their extents.
#![tactic(auto)]

pub mod allocation;
pub mod extent;
pub mod freeing;
pub mod named;
pub mod target;
pub mod variable;
